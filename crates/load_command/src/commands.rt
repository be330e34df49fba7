//! The commands of which a load is made up.

ghost use Rattle.std.specs.Prelude.{◌≡◌};
ghost use Rattle.load_command.specs.Commands.{load_commands};

/// A command of a load. Files are counted from 0.
#[derive(Clone, Copy)]
pub enum Command {
    /// The file of this number is made.
    Make(u32),
    /// The writes to the file of this number, and a flush, are made on its disk.
    Write(u32),
    /// The guests' calls are made on the last file's disk, while workers merge the third one.
    Run,
}

/// Those of a load, in their order (profile).
pub fn load_commands() -> [Command; 10]
    ensures { result ≡ load_commands }
{
    [
        Command::Make(0),
        Command::Write(0),
        Command::Make(1),
        Command::Write(1),
        Command::Make(2),
        Command::Write(2),
        Command::Make(3),
        Command::Write(3),
        Command::Make(4),
        Command::Run,
    ]
}

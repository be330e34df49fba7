//! The files of a load.

ghost use Rattle.std.specs.Prelude.{◌≡◌};
ghost use Rattle.command_base.specs.Commands.{IsNewFile};
ghost use Rattle.command_line.specs.Requests.{plain_file};
ghost use Rattle.load_command.specs.Commands.{load_file, load_name};
ghost use Rattle.vx_base.specs.Names.{IsName};

use command_line::NewFile;

/// Sectors of 512 bytes of the disk (profile).
pub const SECTORS: u64 = 131_072;

/// The name of the file of this number, the last one's being that of all further ones.
pub fn name_of(file: u32) -> &'static str
    ensures value { result.now ≡ load_name file }
    ensures name { IsName result.now }
{
    match file {
        0 => "load0.vhdx",
        1 => "load1.vhdx",
        2 => "load2.vhdx",
        3 => "load3.vhdx",
        _ => "load4.vhdx",
    }
}

/// What the file of this number is made as.
pub fn file_of(file: u32) -> NewFile<'static>
    ensures value { plain_file result ≡ load_file file }
    ensures new { IsNewFile (plain_file result) }
{
    match file {
        0 => NewFile::Dynamic {
            sectors: SECTORS,
            block: 32,
        },
        _ => NewFile::Child {
            parent: name_of(file - 1),
            block: 2,
        },
    }
}

//! Laws of what a dump finds. The functions do nothing; each carries a law of these definitions.

ghost use Rattle.folder_commands.specs.Laws.{NewFilesShow, OneAnswer};

/// A folder gives one answer to a dump: a sector's bytes, or one refusal.
pub fn one_answer()
    ensures { OneAnswer }
{}

/// New dynamic and fixed files are opened and show their disks; no refusal but of the range comes.
pub fn new_files_show()
    ensures { NewFilesShow }
{}

//! Laws of findings. The functions do nothing; each carries a law of these definitions.

ghost use Rattle.check_repair.specs.Laws.{OneListOfFindings, SoundFilesHaveNone};

/// Nothing is found exactly of a file that is opened, whose locator keeps its rules, whose copies are valid, and that names no log.
pub fn sound_files_have_none()
    ensures { SoundFilesHaveNone }
{}

/// A file has one list of findings.
pub fn one_list_of_findings()
    ensures { OneListOfFindings }
{}

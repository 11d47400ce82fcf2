ghost use Rattle.team_files.specs.FileLaws.{FileIsReadOnce};

use link_text::link_is_spelled_once;

/// A file is that of one team, and of one set of links. So the file of a set, read back, is that set.
pub fn file_is_read_once()
    ensures { FileIsReadOnce }
{
    link_is_spelled_once();
}

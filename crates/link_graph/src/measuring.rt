//! How many bytes of a team file a link takes.
ghost use Rattle.std.specs.Prelude.{◌≡◌, ◌≤◌, ◌+◌, length, decimal};
ghost use Rattle.tg_text.specs.Limits.{most_link_bytes};
ghost use Rattle.link_text.specs.TeamFile.{header};
ghost use Rattle.link_graph.specs.Sizes.{frame_length};

use itoa::Buffer;
use tg_text::LinkName;

/// How many digits a number has.
fn count_digits(n: u64) -> u64
    ensures count { result ≡ length (decimal n) }
    ensures few { result ≤ 20 }
{
    let mut buffer = Buffer::new();
    buffer.format(n).len() as u64
}

/// How many bytes the frame of a text of so many bytes has.
pub(crate) fn frame_length(len: usize) -> u64
    requires { len ≤ most_link_bytes }
    ensures length { result ≡ frame_length len }
    ensures small { result ≤ 1048602 }
{
    let len = len as u64;
    6 + count_digits(len) + len
}

/// How many bytes the header of a team has.
pub(crate) fn header_length(team: &LinkName) -> u64
    ensures length { result ≡ length (header team.now) }
    ensures small { result ≤ 77 }
{
    13 + 2 * team.as_slice().len() as u64
}

ghost use Rattle.head_sync.specs.Agreeing.{EndsAgree};
ghost use Rattle.head_sync.specs.MeetLaws.{MeetingExchanges, MeetingUnites};
ghost use Rattle.head_sync.specs.Meetings.{MeetingIsOne};
ghost use Rattle.head_sync.specs.Messages.{MessageIsReadOnce};

use link_intake::items_are_given_once;
use link_text::link_is_spelled_once;

/// Bytes are a message to one team, and say one thing.
pub fn message_is_read_once()
    ensures { MessageIsReadOnce }
{}

/// Whatever messages are lost, come late or come again: where an end has sent and heard Done with equal heads, the links that were
/// connected at both ends when they sent it are the same.
pub fn ends_agree()
    ensures { EndsAgree }
{
    link_is_spelled_once();
}

/// One thing alone comes of a meeting of two held sets.
pub fn meeting_is_one()
    ensures { MeetingIsOne }
{
    link_is_spelled_once();
    items_are_given_once();
}

/// In a meeting each end is given, in the order of the other's team, the texts for which it asks at the start.
pub fn meeting_exchanges()
    ensures { MeetingExchanges }
{}

/// After a meeting each end holds what it held and what was connected at the other, and nothing else.
pub fn meeting_unites()
    ensures { MeetingUnites }
{
    link_is_spelled_once();
}

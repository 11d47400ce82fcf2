//! Laws on what runs do, by the clauses of `run`. The functions do nothing.
ghost use Rattle.team_run.specs.ManyRuns.{MakeBeginsTeam, MergeIsDone, PlainIsDone, RunsInAnyOrder, RunsLeaveUnion, ShowAfterRuns, ShowPrintsTeam, TeamsAreBegun};
ghost use Rattle.team_run.specs.Serving.{ServedEndWell};

use head_sync::meeting_unites;
use key_commands::made_is_held;
use link_intake::merges_in_any_order;
use link_text::link_is_spelled_once;
use lms_keep::{key_is_spelled_once, new_key_has_a_file};
use team_files::{bundle_is_read_once, file_is_read_once};
use team_model::text_is_of_set;

/// A command whose files are as it needs them does all, and refuses nothing but items of a bundle.
pub fn served_end_well()
    ensures { ServedEndWell }
{}

/// After any list of runs, a team's file is that of the links that it held and of the valid ones that the runs gave: whatever the
/// runs were, and however they ended.
pub fn runs_leave_union()
    ensures { RunsLeaveUnion }
{
    link_is_spelled_once();
    file_is_read_once();
    bundle_is_read_once();
    key_is_spelled_once();
    meeting_unites();
}

/// Two files of one team to which runs gave the same valid texts, those that stood in them at first included, hold the same bytes.
pub fn runs_in_any_order()
    ensures { RunsInAnyOrder }
{
    merges_in_any_order();
    runs_leave_union();
}

/// A run of `make` whose replace of the team file is done leaves it as the file of the root alone.
pub fn make_begins_team()
    ensures { MakeBeginsTeam }
{
    made_is_held();
    new_key_has_a_file();
}

/// A file in which no team stood, and one stands after any list of runs, was begun by a run of `make`.
pub fn teams_are_begun()
    ensures { TeamsAreBegun }
{}

/// A merge that ended with 0 or 1 gave the texts of its bundle.
pub fn merge_is_done()
    ensures { MergeIsDone }
{}

/// A run of `plain` that ended with 0 put a link into the team file.
pub fn plain_is_done()
    ensures { PlainIsDone }
{
    file_is_read_once();
    key_is_spelled_once();
}

/// `show` prints the team of the links whose file it finds.
pub fn show_prints_team()
    ensures { ShowPrintsTeam }
{
    file_is_read_once();
    text_is_of_set();
}

/// After any list of runs, `show` prints the team of the links that a file held and of the valid ones that the runs gave.
pub fn show_after_runs()
    ensures { ShowAfterRuns }
{
    file_is_read_once();
    text_is_of_set();
    runs_leave_union();
}

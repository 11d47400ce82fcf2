ghost use Rattle.std.specs.Prelude.{◌≡◌, IfSome};
ghost use Rattle.outcomes.specs.Ending.{HasCauseOrStop};
ghost use Rattle.outcomes.specs.Refusing.{IsFound, RefusesWith};
ghost use Rattle.openers.specs.Team.{FindsTeam};

use link_graph::Graph;
use outcomes::{FileWord, Stop, refuse_file};
use std::alloc::Global;
use team_files::{FileFault, read_graph};
use tg_outside::Files;

/// Opens a team file: the links that it holds, in ascending order of names.
pub fn open_team<F: Files>(alloc: Global, files: &mut F, name: &str) -> Result<Graph, Stop>
    ensures opened { IfSome (F.files files.old) (λ m. IsFound FindsTeam m name.now result) }
    ensures same { F.files files.new ≡ F.files files.old }
    ensures refused { RefusesWith 3 result }
    ensures cause { HasCauseOrStop (F.faults files.old) (F.faults files.new) result }
{
    let Some(bytes) = files.read(alloc, name)? else {
        return Err(refuse_file(alloc, name, FileWord::NoFile));
    };
    match read_graph(alloc, bytes.as_slice()) {
        Ok(graph) => Ok(graph),
        Err(FileFault::BadFile) => Err(refuse_file(alloc, name, FileWord::BadFile)),
        Err(FileFault::Memory) => Err(Stop::Memory),
    }
}

//! The requests that are gathered from recordings.
ghost use Rattle.std.specs.Prelude.{◌≡◌, IfOk, map, true};
ghost use Rattle.std.specs.List.{list_all};
ghost use Rattle.policy_args.specs.Seen.{options_seen};
ghost use Rattle.policy_suggest.specs.Needs.{once};
ghost use Rattle.policy_suggest.specs.Suggest.{is_asked};
ghost use Rattle.recording.specs.Seen.{recording_seen};
ghost use Rattle.suggestion.specs.Requests.{joined, were_gathered};
ghost use Rattle.suggestion.specs.Suggestion.{all_asked, filter_alone};

use link_traits::Gate;
use note_gathering::{Gatherer, gather};
use policy_args::{Options, Policy};
use policy_suggest::Requests;
use policy_view::Note;
use recording::Recording;
use std::alloc::{AllocError, Global};
use std::thread::Threads;

/// What gathers the requests in notes, each once.
#[derive(Drop)]
struct RequestGatherer;

impl Gatherer for RequestGatherer {
    type Gathered = Requests;

    ghost stands_for = { λ _ notes requests. were_gathered notes requests };

    fn start(&self, alloc: Global) -> Result<Requests, AllocError> {
        Ok(Requests::new(alloc))
    }

    fn take(&self, alloc: Global, gathered: &mut Requests, note: &Note) -> Result<(), AllocError> {
        gathered.take(alloc, note)
    }
}

/// The options of `--filter` alone.
fn filter_options(alloc: Global) -> Options
    ensures { options_seen result ≡ filter_alone }
{
    Options {
        filter: true,
        log: false,
        policy: Policy::new(alloc),
    }
}

/// Requests and those after them, each once.
fn joined_of(alloc: Global, all: &[Requests]) -> Result<Requests, AllocError>
    ensures { IfOk result (λ requests. requests ≡ joined all.now) }
{
    let mut requests = Requests::new(alloc);
    for others in all {
        requests.join(alloc, others)?;
    }
    Ok(requests)
}

/// The requests of the clients of recordings, each once. Each recording is played by a job.
pub fn requests_of<R: Threads + Sync, T: Gate + Sync>(
    rt: &R,
    gate: &T,
    alloc: Global,
    recordings: &[Recording],
) -> Result<Requests, AllocError>
    ensures once { IfOk result (λ requests. requests ≡ once (all_asked (map recording_seen recordings.now))) }
    ensures grammar { IfOk result (λ requests. list_all is_asked (all_asked (map recording_seen recordings.now)) ≡ true) }
{
    let options = filter_options(alloc);
    let all = gather(rt, gate, alloc, &RequestGatherer, &options, recordings)?;
    joined_of(alloc, &all)
}

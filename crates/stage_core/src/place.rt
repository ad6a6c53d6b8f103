//! Where a job stands in the order.

ghost use Rattle.std.specs.Prelude.{◌≡◌};
ghost use Rattle.index_model.specs.Machine.{place_of_job};
ghost use Rattle.stage_core.specs.Place.{place_seen};

use index_model::Job;

/// A job by the place of its kind among the kinds, and its number among those of its kind.
#[derive(Clone, Copy)]
pub(crate) struct Place {
    pub kind: usize,
    pub number: usize,
}

/// The place of a job.
pub(crate) fn place_of(job: Job) -> Place
    ensures { place_seen result ≡ place_of_job job }
{
    let (kind, number) = match job {
        Job::Scan(number) => (0, number),
        Job::Link(number) => (1, number),
        Job::Main => (2, 0),
        Job::Name(number) => (3, number),
        Job::Merge => (4, 0),
        Job::Write => (5, 0),
    };
    Place {
        kind,
        number: number as usize,
    }
}

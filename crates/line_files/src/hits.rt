//! The files of all units with a name.

ghost use Rattle.std.specs.Prelude.{◌≡◌, ◌+◌, ◌*◌, ◌<◌, ◌≤◌, length, min, IfOk};
ghost use Rattle.std.specs.List.{AllZip};
ghost use Rattle.ix_base.specs.declared.limits.TheConstants.{MAX_UNITS};
ghost use Rattle.index_model.specs.Gives.{Gives};
ghost use Rattle.reach_model.specs.LineTables.{hits_of};
ghost use Rattle.line_files.specs.Found.{hits_seen};
ghost use Rattle.line_files.specs.Programs.{ForProgram};
ghost use Rattle.line_files.specs.Runs.{hits_between, hits_of_runs, run_start, IsJoined};

use crate::found::FileHit;
use crate::run::hits_in_run;
use file_image::Image;
use ix_base::Stop;
use rayon::prelude::*;
use std::alloc::{AllocError, Global};
use std::thread::Threads;

/// Consecutive runs that make up all units.
#[derive(Clone, Copy)]
struct Cut {
    /// How many units there are.
    count: u32,
    /// How many of them a run has, if they don't end before.
    size: u32,
    /// How many runs there are.
    runs: u32,
    ghost whole: { count ≤ runs * size },
    ghost few: { runs ≤ MAX_UNITS },
}

impl Cut {
    // One run for each worker, if there are as many units.
    fn new(count: u32, workers: u32) -> Cut
        requires { count ≤ MAX_UNITS }
        ensures { result.count ≡ count }
    {
        let runs = workers.min(count).max(1);
        Cut {
            count,
            size: count / runs + 1,
            runs,
        }
    }

    // The number of the first unit of a run.
    fn start(&self, run: u32) -> u32
        ensures { result ≡ run_start self.now.count self.now.size run }
    {
        run.saturating_mul(self.size).min(self.count)
    }
}

// The files with this name in each run.
fn hits_in_runs<'f, R: Threads + Sync>(
    rt: &R,
    alloc: Global,
    image: &Image<'f>,
    name: &[u8],
    cut: Cut,
) -> Result<Vec<Result<Vec<FileHit<'f>>, Stop>>, AllocError>
    requires { cut.count ≡ length image.now.units }
    ensures { IfOk result (λ v. AllZip (Gives (λ part. hits_seen part.items)) v.items (hits_of_runs image.now name.now cut.count cut.size 0 cut.runs)) }
{
    (0..cut.runs)
        .into_par_iter()
        .with_min_len(1)
        .map(
            |run: u32| -> Result<Vec<FileHit>, Stop>
                requires { (cut.count ≡ length image.now.units) × (run < cut.runs) }
                ensures { Gives (λ part. hits_seen part.items) result (hits_between image.entry.now name.entry.now (run_start cut.count cut.size run) (run_start cut.count cut.size (run + 1))) }
            { hits_in_run(alloc, image, name, cut.start(run), cut.start(run + 1)) },
        )
        .collect(rt, alloc)
}

// The files of these runs, or what stopped the first that stopped.
fn joined<'f>(
    alloc: Global,
    runs: Vec<Result<Vec<FileHit<'f>>, Stop>>,
) -> Result<Vec<FileHit<'f>>, Stop>
    ensures { IsJoined runs.entry.items result }
{
    let mut hits = Vec::new(alloc);
    'runs: for run in runs {
        hits.append(&mut run?)?;
    }
    Ok(hits)
}

/// The files of all units whose path, or what follows its last slash, is the name: in section order, and then in the order of
/// the tables. At most so many threads read at a time.
///
/// The fault is that of the first unit in section order whose table has one, as `table` tells it. The image is that of a
/// file without a fault; else nothing is said of the answer.
pub fn list<'f, R: Threads + Sync>(
    rt: &R,
    alloc: Global,
    image: &Image<'f>,
    name: &[u8],
    workers: u32,
) -> Result<Vec<FileHit<'f>>, Stop>
    ensures { ForProgram image.now.file (λ p. Gives (λ v. hits_seen v.items) result (hits_of p.sections p.walks name.now)) }
{
    let cut = Cut::new(image.units().len() as u32, workers);
    let runs = hits_in_runs(rt, alloc, image, name, cut)?;
    joined(alloc, runs)
}

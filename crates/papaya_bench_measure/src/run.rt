//! The whole program, over any runtime and writers.
ghost use Rattle.std.specs.Prelude.{◌≡◌, ◌≤◌, map, string_bytes};
ghost use Rattle.papaya_bench_measure.specs.declared.arguments.BenchTask.{BenchTask};
ghost use Rattle.papaya_bench_measure.specs.Arguments.{AskFor};

use crate::answers::compare;
use crate::arguments::BenchTask;
use crate::backends::BenchBackend;
use crate::growth::time_growth;
use crate::lines::{print_line, written};
use crate::plan::{Plan, Workload};
use crate::reclaim::{time_from_empty, time_grown, time_reclaim};
use crate::shared_growth::time_shared_growth;
use crate::soak::time_soak;
use crate::soak_plan::{Soak, Writes};
use papaya_run_shell::failure::{Failure, ended};
use papaya_words::resize_mode::ResizeMode;
use std::alloc::Global;
use std::io::Write;
use std::rt::{Clock, Files};
use std::sync::Wait;
use std::thread::Threads;

/// The name of the program in what it prints on standard error.
pub const PROGRAM: &str = "papaya-bench";

/// The number of keys of a map whose results are compared, and the number of rounds.
const CHECKED: (u32, u32) = (64, 2);

/// The number of keys of a map that is timed, and the number of rounds.
const TIMED: [(u32, u32); 2] = [(0x1000, 64), (0x1_0000, 4)];

/// The number of keys of a map that is timed at few workloads, which does not fit in a cache.
const LARGE: u32 = 0x10_0000;

/// The number of rounds in which one key is written that is alone in its map.
const ALONE: u32 = 0x4_0000;

/// The number of keys by which a map grows that is filled from empty.
const GROWN: u32 = 0x1_0000;

/// The numbers of keys by which each map grows, if only growth is timed.
const GROWN_TO: [u32; 3] = [0x1000, 0x1_0000, 0x10_0000];

/// The number of keys of a map that is reclaimed, and the rounds in which they were inserted.
const RECLAIMED: [(u32, u32); 3] = [(0x1_0000, 1), (LARGE, 1), (1000, 1001)];

/// The number of operations of each map that is kept at work.
const SOAKED: u32 = 100_000_000;

/// The share of writes of such a map, and its number of keys.
const SOAKS: [(Writes, u32); 3] = [
    (Writes::OneInTen, 1000),
    (Writes::All, 1000),
    (Writes::OneInTen, 0x10_0000),
];

/// Prints the sum of a backend's results in one workload, and returns it.
fn check_backend<R: Clock + Threads + Wait + Sync, W: Write>(
    rt: &R,
    alloc: Global,
    backend: BenchBackend,
    plan: Plan,
    output: &mut W,
) -> Result<u64, Failure> {
    let sum = backend.measure(rt, alloc, plan)?.checksum;
    written(write!(output, " {} {sum}", backend.name()))?;
    Ok(sum)
}

/// Prints the sums of these backends' results in one workload, of those that run it. Fails if the
/// sums are not equal.
fn check_workload<R: Clock + Threads + Wait + Sync, W: Write>(
    rt: &R,
    alloc: Global,
    backends: &[BenchBackend],
    workload: Workload,
    output: &mut W,
) -> Result<(), Failure> {
    let (keys, rounds) = CHECKED;
    let plan = Plan {
        workload,
        keys,
        rounds,
    };
    written(write!(output, "{}:", workload.name()))?;
    let mut sums = Vec::new(alloc);
    for backend in backends {
        if backend.does(workload) {
            sums.push(check_backend(rt, alloc, *backend, plan, output)?)?;
        }
    }
    written(writeln!(output))?;
    match sums.as_slice() {
        [first, others @ ..] => compare(*first, others),
        [] => Ok(()),
    }
}

/// Compares the backends' results in each workload.
fn check<R: Clock + Threads + Wait + Sync, W: Write>(
    rt: &R,
    alloc: Global,
    output: &mut W,
) -> Result<(), Failure> {
    for workload in Workload::ALL {
        check_workload(rt, alloc, BenchBackend::MAPS, workload, output)?;
        if BenchBackend::SETS.iter().any(|set| set.does(workload)) {
            check_workload(rt, alloc, BenchBackend::SETS, workload, output)?;
        }
    }
    written(output.flush())
}

/// Prints the time that each of these backends takes for one workload, if it runs it.
fn time_backends<R: Clock + Threads + Wait + Sync, W: Write>(
    rt: &R,
    alloc: Global,
    backends: &[BenchBackend],
    plan: Plan,
    output: &mut W,
) -> Result<(), Failure> {
    for backend in backends {
        if backend.does(plan.workload) {
            let measure = backend.measure(rt, alloc, plan)?;
            let numbers = [
                u128::from(plan.steps()),
                measure.nanoseconds,
                u128::from(measure.checksum),
            ];
            print_line(
                plan.workload.name(),
                backend.name(),
                plan.keys,
                &numbers,
                output,
            )?;
        }
    }
    Ok(())
}

/// Prints the time that each backend takes for one workload, if it runs it.
pub fn time_workload<R: Clock + Threads + Wait + Sync, W: Write>(
    rt: &R,
    alloc: Global,
    plan: Plan,
    output: &mut W,
) -> Result<(), Failure> {
    for backends in [BenchBackend::LOOP, BenchBackend::MAPS, BenchBackend::SETS] {
        time_backends(rt, alloc, backends, plan, output)?;
    }
    Ok(())
}

/// Times lookups in maps of many keys, by few backends.
fn time_large<R: Clock + Threads + Wait + Sync, W: Write>(
    rt: &R,
    alloc: Global,
    output: &mut W,
) -> Result<(), Failure> {
    for workload in [Workload::GetHit, Workload::GetMiss] {
        let plan = Plan {
            workload,
            keys: LARGE,
            rounds: 1,
        };
        time_backends(rt, alloc, BenchBackend::FEW, plan, output)?;
    }
    Ok(())
}

/// Times each workload, and maps that grow.
fn time<R: Clock + Threads + Wait + Sync, W: Write>(
    rt: &R,
    alloc: Global,
    output: &mut W,
) -> Result<(), Failure> {
    for (keys, rounds) in TIMED {
        for workload in Workload::ALL {
            let plan = Plan {
                workload,
                keys,
                rounds,
            };
            time_workload(rt, alloc, plan, output)?;
        }
    }
    time_large(rt, alloc, output)?;
    for workload in [Workload::InsertReplace, Workload::UpdateOrInsert] {
        let plan = Plan {
            workload,
            keys: 1,
            rounds: ALONE,
        };
        time_workload(rt, alloc, plan, output)?;
    }
    for mode in [ResizeMode::default(), ResizeMode::Blocking] {
        time_growth(rt, alloc, mode, GROWN, output)?;
    }
    Ok(())
}

/// Times maps that grow: the one for one caller, and the shared one.
fn grow<R: Clock + Threads + Wait + Sync, W: Write>(
    rt: &R,
    alloc: Global,
    output: &mut W,
) -> Result<(), Failure> {
    for keys in GROWN_TO {
        for mode in [ResizeMode::default(), ResizeMode::Blocking] {
            time_growth(rt, alloc, mode, keys, output)?;
            time_shared_growth(rt, alloc, mode, keys, output)?;
        }
    }
    Ok(())
}

/// Times maps that are filled from empty, and maps with room that are filled and then reclaimed.
fn reclaim<R: Clock + Wait, W: Write>(
    rt: &R,
    alloc: Global,
    output: &mut W,
) -> Result<(), Failure> {
    time_from_empty(rt, alloc, GROWN, output)?;
    time_grown(rt, alloc, LARGE, output)?;
    for plan in RECLAIMED {
        time_reclaim(rt, alloc, plan, output)?;
    }
    Ok(())
}

/// Times maps that threads keep at work for this many operations, and prints their memory.
fn soak<R: Clock + Files + Threads + Wait + Sync, W: Write>(
    rt: &R,
    alloc: Global,
    operations: u32,
    output: &mut W,
) -> Result<(), Failure> {
    for (writes, keys) in SOAKS {
        let soak = Soak {
            writes,
            keys,
            operations,
        };
        time_soak(rt, alloc, soak, output)?;
    }
    Ok(())
}

/// Does what the arguments request.
fn run<R: Clock + Files + Threads + Wait + Sync, W: Write>(
    rt: &R,
    alloc: Global,
    args: &[String],
    output: &mut W,
) -> Result<(), Failure>
    ensures { ((task : BenchTask) → ¬ (AskFor (map string_bytes args.now) task))
        → result ≡ Err Failure.Arguments }
{
    match BenchTask::from_words(args) {
        None => Err(Failure::Arguments),
        Some(BenchTask::Check) => check(rt, alloc, output),
        Some(BenchTask::Time) => time(rt, alloc, output),
        Some(BenchTask::Grow) => grow(rt, alloc, output),
        Some(BenchTask::Reclaim) => reclaim(rt, alloc, output),
        Some(BenchTask::Soak(operations)) => soak(rt, alloc, operations.unwrap_or(SOAKED), output),
    }
}

/// Runs the program on the arguments behind its name, and returns its exit status: 0, or that of
/// the failure that it has printed on `errors`.
pub fn run_on<R: Clock + Files + Threads + Wait + Sync, W: Write, E: Write>(
    rt: &R,
    alloc: Global,
    args: &[String],
    output: &mut W,
    errors: &mut E,
) -> u8
    ensures bad_arguments { ((task : BenchTask) → ¬ (AskFor (map string_bytes args.now) task))
        → result ≡ 2 }
    ensures bound { result ≤ 2 }
{
    ended(run(rt, alloc, args, output), PROGRAM, errors)
}

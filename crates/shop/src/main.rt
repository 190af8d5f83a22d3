//! `shop`: four threads book deliveries, and then two sell at once, and never more than there is.
//! Strangers choose the numbers of the articles, so the map hashes them with a random seed.
#![tactic(auto)]

use papaya::{Compute, HashMap, Operation, Refused, Session};
use std::alloc::Global;
use std::hash::RandomState;
use std::process::ExitCode;
use std::sync::Wait;
use std::thread::{Threads, map_chunks};
use std::{io, thread};

/// The number of pieces of each article.
type Stock = HashMap<u64, u64, RandomState>;

/// The articles that were delivered, each with its pieces.
const DELIVERIES: [(u64, u64); 8] = [
    (1, 10),
    (2, 5),
    (1, 20),
    (3, 8),
    (1, 30),
    (2, 5),
    (1, 40),
    (3, 2),
];

/// Books some deliveries, by one thread.
fn book(rt: &impl Wait, stock: &Stock, deliveries: &[(u64, u64)]) -> Result<(), Refused> {
    let mut session = Session::new(stock);
    for (article, pieces) in deliveries {
        session.update_or_insert(rt, *article, |had| had.saturating_add(*pieces), *pieces)?;
    }
    Ok(())
}

/// Books all deliveries by four threads, each of which gets a part of them.
fn book_all(
    rt: &(impl Threads + Wait + Sync),
    alloc: Global,
    stock: &Stock,
    deliveries: &[(u64, u64)],
) -> Result<(), Refused> {
    // `map_chunks` requires a size above 0
    let size = deliveries.len().div_ceil(4).max(1);
    let booked = map_chunks(
        rt,
        alloc,
        deliveries,
        size,
        &|_, part| book(rt, stock, part),
    );
    let Ok(parts) = booked else {
        return Err(Refused::Memory);
    };
    for part in parts {
        part?;
    }
    Ok(())
}

/// Sells pieces of an article in one step, and returns how many are left. If there are fewer, it
/// sells none and returns `None`.
fn sell(
    rt: &impl Wait,
    stock: &mut Session<'_, u64, u64, RandomState>,
    article: u64,
    pieces: u64,
) -> Result<Option<u64>, Refused> {
    let sold = stock.compute(rt, article, |entry| match entry {
        Some((_, had)) => match had.checked_sub(pieces) {
            Some(0) => Operation::Remove,
            Some(left) => Operation::Insert(left),
            None => Operation::Abort(()),
        },
        None => Operation::Abort(()),
    })?;
    Ok(match sold {
        Compute::Updated { new: (_, left), .. } => Some(*left),
        Compute::Removed(..) => Some(0),
        Compute::Inserted(..) | Compute::Aborted(()) => None,
    })
}

/// Serves customers who each buy 5 pieces of article 1, by one thread. Returns how many it served.
fn serve(rt: &impl Wait, stock: &Stock, customers: u64) -> Result<u64, Refused> {
    let mut session = Session::new(stock);
    let mut served = 0u64;
    for _ in 0..customers {
        if sell(rt, &mut session, 1, 5)?.is_some() {
            served = served.saturating_add(1);
        }
    }
    Ok(served)
}

/// Serves 13 and 9 customers by two threads at once: one of the scope's, and this one.
fn serve_by_two(rt: &(impl Threads + Wait + Sync), stock: &Stock) -> Result<u64, Refused> {
    thread::scope(thread::scope_env(), rt, |scope| {
        let Ok(other) = scope.spawn(move || serve(rt, stock, 13)) else {
            return Err(Refused::Memory);
        };
        let own = serve(rt, stock, 9);
        let other = other.join(rt)?;
        Ok(own?.saturating_add(other))
    })
}

/// Books the deliveries and serves the customers. Returns how many customers were served.
fn run(
    rt: &(impl Threads + Wait + Sync),
    alloc: Global,
    hasher: RandomState,
) -> Result<u64, Refused> {
    let stock: Stock = HashMap::with_hasher(rt, alloc, hasher)?;
    book_all(rt, alloc, &stock, &DELIVERIES)?;
    serve_by_two(rt, &stock)
}

fn main(rt: HostRuntime) -> io::Result<ExitCode> {
    let hasher = RandomState::new(&rt)?;
    match run(&rt, rt.alloc(), hasher) {
        Ok(served) => {
            println!(rt; "{served} of 22 customers bought 5 pieces each")?;
            Ok(ExitCode::SUCCESS)
        }
        Err(refused) => {
            eprintln!(rt; "refused: {refused}")?;
            Ok(ExitCode::FAILURE)
        }
    }
}

//! The logins of a server that runs for months. Threads share a table of logins, each of which ends
//! at a time, and a sweep frees the memory of those that ended.
ghost use Rattle.std.specs.Prelude.{◌≡◌, ◌<◌, IfOk, IfSome, nat_lt};
ghost use mathlib.Core.List.{IsPrefix};
ghost use Rattle.papaya_uses.specs.Logins.{AreEndedGone, DropsEnded};

use papaya::reclaiming::Handle;
use papaya::{HashMap, Reclaiming, ReclaimingMap, Refused, Session};
use std::alloc::Global;
use std::hash::{BuildHasherDefault, FoldHasher};
use std::sync::Wait;

/// A user, who is logged in until this time, in seconds since the server was started.
#[derive(Clone, Copy)]
pub struct Login {
    pub user: u64,
    pub until: u64,
}

/// The login of each token, as a session of a guard takes it.
pub type Table = HashMap<u64, Login, BuildHasherDefault<FoldHasher>>;

/// A thread's handle to the logins. Each thread makes one, `logins.handle()`.
pub type Desk<'a> = Handle<'a, Table>;

/// Returns an empty table of logins, which threads share.
pub fn logins<R: Wait>(rt: &R, alloc: Global) -> Result<ReclaimingMap<u64, Login>, Refused> {
    Reclaiming::new(alloc, Table::new(rt, alloc)?)
}

/// Logs a user in under a token, until the time that the login says.
pub fn log_in<R: Wait>(
    rt: &R,
    desk: &mut Desk<'_>,
    token: u64,
    login: Login,
) -> Result<(), Refused> {
    desk.enter(rt).pin().insert(rt, token, login)?;
    Ok(())
}

/// Returns the login of a token, if it has not ended by now.
pub fn login_of<R: Wait>(rt: &R, desk: &mut Desk<'_>, token: u64, now: u64) -> Option<Login>
    ensures { IfSome result (λ login. now < login.until) }
{
    match desk.enter(rt).pin().get(&token) {
        Some(login) if now < login.until => Some(*login),
        _ => None,
    }
}

/// Removes the logins that have ended by now, and no other.
///
/// # Errors
///
/// Fails with `Refused::Memory` or `Refused::Capacity`, as [`Session::retain`] does. It may then
/// have removed some of the logins.
pub fn drop_ended<R: Wait>(
    rt: &R,
    logins: &mut Session<'_, u64, Login>,
    now: u64,
) -> Result<(), Refused>
    ensures seen { IsPrefix logins.old.history logins.new.history }
    ensures gone { IfOk result (λ _. AreEndedGone now logins.old.history logins.new.history) }
    ensures made { DropsEnded now logins.old.made logins.new.made }
{
    logins.retain(
        rt,
        |_, login|
            ensures { result ≡ nat_lt now login.now.until }
        { now < login.until },
    )
}

/// Removes the logins that have ended by now, and reclaims the table if more than half of what it
/// stores is of no use; returns whether it did. A thread of the server calls it from time to time.
pub fn sweep<R: Wait>(rt: &R, desk: &mut Desk<'_>, now: u64) -> Result<bool, Refused> {
    drop_ended(rt, &mut Session::new(&desk.enter(rt)), now)?;
    desk.reclaim_if(rt, 2)
}

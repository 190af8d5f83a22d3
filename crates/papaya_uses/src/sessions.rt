//! The users who are signed in: a table that threads share, from tokens to users.
ghost use Rattle.std.specs.Prelude.{◌≡◌, ◌==◌, IfOk, is_ok};
ghost use mathlib.Core.List.{IsPrefix};
ghost use Rattle.papaya.specs.Threads.{Makes};
ghost use Rattle.papaya_uses.specs.Answers.{is_yes};
ghost use Rattle.papaya_uses.specs.Sessions.{IsSignedIn, IsSignedOut, IsUserBetween};

use papaya::{HashMap, Refused, Session};
use std::hash::{BuildHasherDefault, FoldHasher};
use std::sync::Wait;

/// The user of each token. A thread's desk is a session of it, `Session::new(&users)`.
pub type Users = HashMap<u64, u64, BuildHasherDefault<FoldHasher>>;

/// Gives the token to a user, and returns its previous user.
///
/// # Errors
///
/// Fails with `Refused::Memory`, `Refused::Capacity` or `Refused::Limit`, as [`Session::insert`]
/// does, and then changes nothing.
pub fn sign_in<R: Wait>(
    rt: &R,
    desk: &mut Session<'_, u64, u64>,
    token: u64,
    user: u64,
) -> Result<Option<u64>, Refused>
    ensures seen { IsPrefix desk.old.history desk.new.history }
    ensures put { IfOk result (IsSignedIn token user desk.old.history desk.new.history) }
    ensures made { Makes (is_ok result) desk.old.made desk.new.made desk.new.history }
{
    let before = desk.insert(rt, token, user)?;
    Ok(before.copied())
}

/// Returns the user of a token. It never waits.
pub fn user_of(desk: &mut Session<'_, u64, u64>, token: u64) -> Option<u64>
    ensures seen { IsPrefix desk.old.history desk.new.history }
    ensures answered { IsUserBetween token desk.old.history desk.new.history result }
{
    desk.get(&token).copied()
}

/// Removes the token of this user; returns whether it did. It returns `false` if there is no such
/// token, or if another user has it now; then it changes nothing.
///
/// # Errors
///
/// Fails with `Refused::Memory` or `Refused::Capacity`, as [`Session::remove_if`] does, and then
/// changes nothing.
pub fn sign_out<R: Wait>(
    rt: &R,
    desk: &mut Session<'_, u64, u64>,
    token: u64,
    user: u64,
) -> Result<bool, Refused>
    ensures seen { IsPrefix desk.old.history desk.new.history }
    ensures taken { IfOk result (IsSignedOut token user desk.old.history desk.new.history) }
    ensures made { Makes (is_yes result) desk.old.made desk.new.made desk.new.history }
{
    let removed = desk.remove_if(
        rt,
        &token,
        |_, of|
            ensures { result ≡ (of.now == user) }
        { *of == user },
    );
    match removed {
        Ok(Ok(Some(_))) => Ok(true),
        Ok(Ok(None)) => Ok(false),
        Ok(Err(_)) => Ok(false),
        Err(refused) => Err(refused),
    }
}

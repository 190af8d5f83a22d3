//! A gate round the rule of a book. It says who may add certain entries, the tracked ones, and it
//! lets their authors know all of them. It uses the kit's `logbook`, and no crate of this
//! repository.
//!
//! A book of `logbook` is never closed: a thread has observed a prefix of the log, and other
//! threads may have added more entries. [`rule::Gated`] is any rule with a gate beside it, and
//! [`rule::Tracking`] says which entries are tracked.
//!
//! While the [`gate::Gate`] is open, anyone may add tracked entries. A step that adds them pays
//! with a `&` to the gate: [`steps::paid`]. [`gate::Gate::freeze`] begins an era with one author, a
//! [`gate::Writer`]. During an era only its authors add tracked entries, and each author's list has
//! exactly those that it added. The list of an only author has all tracked entries of the log
//! ([`gate::Gate::whole`]). With several authors, the tracked entries are a merge of their lists
//! ([`gate::Gate::gather`]). [`gate::Gate::unite`] puts one author in the place of several.
//!
//! A step that adds no tracked entry needs no gate: [`steps::unpaid`], [`steps::load`].
//!
//! No type of this crate has bytes. A compare-exchange or a load is one atomic instruction, as in
//! `logbook`, and the other functions run no code.
#![tactic(auto)]

pub mod ended;
pub mod gate;
pub mod rule;
pub mod steps;
pub mod team;
mod unpaid;

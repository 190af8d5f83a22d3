//! One caller without any other. The functions have empty bodies; their contracts are laws.
ghost use Rattle.std.specs.Prelude.{◌≡◌, Bool, [], None, Some};
ghost use Rattle.papaya_core_timeline.specs.Advances.{Advances};
ghost use Rattle.papaya_core_timeline.specs.Begins.{Begins, begun_work};
ghost use Rattle.papaya_core_timeline.specs.Content.{map_of};
ghost use Rattle.papaya_core_timeline.specs.Core.{CoreState};
ghost use Rattle.papaya_core_timeline.specs.Counted.{IsCounted};
ghost use Rattle.papaya_core_timeline.specs.Ends.{IsLone, IsNearer};
ghost use Rattle.papaya_core_timeline.specs.Resized.{IsLoneResizer, IsLoneWork, IsNearerResized, IsResized};
ghost use Rattle.papaya_core_timeline.specs.Resized.{IsLoneScanner, IsNearerScanned};
ghost use Rattle.papaya_core_timeline.specs.Resizes.{Resizes};
ghost use Rattle.papaya_core_timeline.specs.ScanGoes.{Scans};
ghost use Rattle.papaya_call.specs.declared.call.Reply.TheVariants.{Done as Reply_done};
ghost use Rattle.papaya_core_timeline.specs.Kept.{IsLawfulCore};
ghost use Rattle.papaya_core_timeline.specs.Solo.{IsAnswered, IsNewIn, RunsAlone, whatever};
ghost use Rattle.papaya_core_store.specs.Store.{KeepsPairs};
ghost use Rattle.papaya_words_keys.specs.Hashes.{hash_of};

use crate::trace::Event;
use papaya_call::call::{Call, Reply};
use papaya_call::chain::resizer::Resizer;
use papaya_core_store::pairs::Running;
use papaya_core_store::scans::Scanning;
use std::hash::{BuildHasher, Hash};

/// States that a call that runs alone does what the finite map does, and leaves the words and the
/// count in order. A map for one caller relies on this.
pub fn one_call<K: Hash + Eq, V, S: BuildHasher, A, B>()
    ensures answers { (s s' : CoreState K V S A) (call : Call K V A) (reply : Reply)
        → IsLawfulCore K.eq (hash_of K.hash_input S.build_hasher S.Hasher.write S.Hasher.finish
        s.store.hasher) s.store s.callers s.mode → RunsAlone K.eq
        (hash_of K.hash_input S.build_hasher S.Hasher.write S.Hasher.finish) s call reply s'
        → IsAnswered K.eq call (map_of K.eq s) reply (map_of K.eq s') }
    ensures stores { (s s' : CoreState K V S A) (call : Call K V A) (reply : Reply)
        → IsLawfulCore K.eq (hash_of K.hash_input S.build_hasher S.Hasher.write S.Hasher.finish
        s.store.hasher) s.store s.callers s.mode → RunsAlone K.eq
        (hash_of K.hash_input S.build_hasher S.Hasher.write S.Hasher.finish) s call reply s'
        → IsNewIn s.store reply × KeepsPairs s.store s'.store }
    ensures lawful { (s s' : CoreState K V S A) (call : Call K V A) (reply : Reply)
        → IsLawfulCore K.eq (hash_of K.hash_input S.build_hasher S.Hasher.write S.Hasher.finish
        s.store.hasher) s.store s.callers s.mode → IsCounted K.eq s.store s.callers
        → RunsAlone K.eq (hash_of K.hash_input S.build_hasher S.Hasher.write S.Hasher.finish) s call
        reply s' → IsLawfulCore {A = A} K.eq (hash_of K.hash_input S.build_hasher S.Hasher.write
        S.Hasher.finish s'.store.hasher) s'.store [] s'.mode × IsCounted {A = A} K.eq s'.store
        [] × (s'.store.hasher ≡ s.store.hasher) × (s'.mode ≡ s.mode) × (s'.initial ≡ s.initial) }
    ensures idle { (s : CoreState K V S A) → IsLawfulCore {A = A} K.eq
        (hash_of K.hash_input S.build_hasher S.Hasher.write S.Hasher.finish s.store.hasher) s.store
        [] s.mode → IsLawfulCore {A = B} K.eq (hash_of K.hash_input S.build_hasher S.Hasher.write
        S.Hasher.finish s.store.hasher) s.store [] s.mode }
{}

/// States that a call that runs alone ends. Until it replies, each of its steps lowers a measure of
/// the words and of what is under way, whatever its closure returns. So a map for one caller may
/// step it until it replies. When a call that resizes the map ends, the resize that was wanted is
/// finished: nothing is left to copy, or there is room.
pub fn one_call_ends<K: Hash + Eq, V, S: BuildHasher, A>()
    ensures begins { (s s' : CoreState K V S A) (call : Call K V A) → s.callers ≡ []
        → IsLawfulCore K.eq (hash_of K.hash_input S.build_hasher S.Hasher.write S.Hasher.finish
        s.store.hasher) s.store s.callers s.mode → (begins : Begins (hash_of K.hash_input
        S.build_hasher S.Hasher.write S.Hasher.finish s.store.hasher) s 0 call s') → IsLoneWork K.eq
        (hash_of K.hash_input S.build_hasher S.Hasher.write S.Hasher.finish) s'
        (begun_work (hash_of K.hash_input S.build_hasher S.Hasher.write S.Hasher.finish
        s.store.hasher) s.mode s.initial begins.number call) }
    ensures nearer { (refuse : Bool) (s s' : CoreState K V S A) (r : Running K V A)
        (event : Event) → IsLone K.eq
        (hash_of K.hash_input S.build_hasher S.Hasher.write S.Hasher.finish) s r
        → Advances K.eq whatever (hash_of K.hash_input S.build_hasher S.Hasher.write S.Hasher.finish)
        refuse s 0 s' event None → IsNearer K.eq
        (hash_of K.hash_input S.build_hasher S.Hasher.write S.Hasher.finish) s r s' }
    ensures resizer_nearer { (refuse : Bool) (s s' : CoreState K V S A) (resizer : Resizer)
        (event : Event) → IsLoneResizer K.eq
        (hash_of K.hash_input S.build_hasher S.Hasher.write S.Hasher.finish) s resizer
        → Resizes K.eq (hash_of K.hash_input S.build_hasher S.Hasher.write S.Hasher.finish)
        refuse s 0 s' event None → IsNearerResized K.eq
        (hash_of K.hash_input S.build_hasher S.Hasher.write S.Hasher.finish) s resizer s' }
    ensures resized { (refuse : Bool) (s s' : CoreState K V S A) (resizer : Resizer)
        (event : Event) → IsLoneResizer K.eq
        (hash_of K.hash_input S.build_hasher S.Hasher.write S.Hasher.finish) s resizer
        → Resizes K.eq (hash_of K.hash_input S.build_hasher S.Hasher.write S.Hasher.finish)
        refuse s 0 s' event (Some Reply_done) → IsResized resizer.resize s'.store }
    ensures scanner_nearer { (refuse : Bool) (s s' : CoreState K V S A) (v : Scanning A)
        (event : Event) → IsLoneScanner K.eq
        (hash_of K.hash_input S.build_hasher S.Hasher.write S.Hasher.finish) s v
        → Scans K.eq whatever (hash_of K.hash_input S.build_hasher S.Hasher.write S.Hasher.finish)
        refuse s 0 s' event None → IsNearerScanned K.eq
        (hash_of K.hash_input S.build_hasher S.Hasher.write S.Hasher.finish) s v s' }
{}

//! The turnstile.
ghost use Rattle.std.specs.Prelude.{◌≡◌, ℕ, ◌+◌, ◌^◌, ◌<◌, ◌≤◌, [], ◌∷◌, true, false, IfOk, IfErr, IfSome, Some, None, All};
ghost use Rattle.std.specs.Option.{is_some};
ghost use Rattle.mt_turn.specs.declared.view.Window.{Window};
ghost use Rattle.mt_turn.specs.Windows.{last_of, end_of, InOrder};
ghost use Rattle.mt_turn.specs.Views.{first_pass, after_take, after_give, after_split, split_off, sees, hears};
ghost use Rattle.mt_turn.specs.Turns.{OfTaken, FindsWindow, Finds, MayGive, RisesByOne, IsLater};

use crate::journal::{Journaled, Knowing};
use crate::pass::{Pass, PassOf};
use crate::rule::{Claim, Law, Leave, Look, Note, Number, Picked, Tell, ViewOf};
use atomic_table::{Refused, Seat, Table};
use std::alloc::Global;
use std::hint::spin_loop;
use std::marker::Brand;
use std::snapshot::Snapshot;
use std::sync::Wait;
use std::sync::atomic::{AtomicU64, Ordering};

/// How often a pass looks at the word before it sleeps.
const LOOKS: u32 = 100;

/// A lock over one value.
#[derive(Drop)]
pub struct Turnstile<W: Journaled> {
    table: Table<Option<W>, ViewOf<W>, Snapshot<W>, Law<W>, Global>,
    /// How many threads sleep or are about to. It only saves wakes: no clause speaks of it.
    waiting: AtomicU64,
    pub ghost sized: { (table.shared.table_id.words ≡ 1) × (table.shared.table_id.slots ≡ 1) },
}

/// There was no memory for a turnstile.
#[derive(Drop)]
pub struct NotMade<W> {
    pub value: W,
}

impl<W: Journaled> Turnstile<W> {
    ghost use Rattle.mt_turn.specs.Passes.{known, IsOf, OfOne};

    /// Puts the value under a turnstile, and gives the pass of caller 0, which has seen its window.
    ///
    /// `NotMade` is want of memory alone, and hands the value back.
    pub fn new(alloc: Global, value: W) -> Result<(Turnstile<W>, PassOf<W>), NotMade<W>>
        requires few { end_of (W.window value) < 2 ^ 63 }
        ensures ok { IfOk result (λ r. IsOf r.1 r.0 × (known r.1 ≡ first_pass W.window W.fixed value)) }
        ensures err { IfErr result (λ r. r.value ≡ value) }
    {
        let about = Snapshot::of(&value);
        let word = 2 * value.made();
        let Ok(mut slots) = Vec::with_capacity(alloc, 1) else {
            return Err(NotMade { value });
        };
        slots.push_reserved(Some(value));
        match Table::new(alloc, &[word], slots, &about) {
            Ok((table, seat)) => {
                let waiting = AtomicU64::new(0);
                let first = Pass {
                    caller: 0,
                    count: 0,
                    seat,
                };
                Ok((Turnstile { table, waiting }, first))
            }
            Err(Refused { mut slots }) => match slots.pop() {
                Some(Some(value)) => Err(NotMade { value }),
                _ => unreachable!(),
            },
        }
    }

    /// Waits for the turn, and takes the value.
    ///
    /// The value's window follows the last one that the pass has seen, and no entry that came in
    /// between is the pass's own. The facts of the pass hold of the value. Where the value tells
    /// what it contains, the value that the pass took last did.
    pub fn take<R: Wait>(&self, rt: &R, pass: &mut PassOf<W>) -> W
        requires own { IsOf pass.old self.now }
        requires free { (known pass.old).turn ≡ false }
        ensures own { OfOne pass.old pass.new }
        ensures view { known pass.new ≡ after_take W.window (known pass.old) result }
        ensures window { FindsWindow W.base_after W.caller_of (known pass.old) (W.window result) }
        ensures few { end_of (W.window result) < 2 ^ 63 }
        ensures fixed { (known pass.old).fixed ≡ Some (W.fixed result) }
        ensures facts { All (W.holds result) (known pass.old).facts }
        ensures told { W.tells result → IfSome (known pass.old).last W.tells }
        ensures order { InOrder W.base_after (known pass.new).seen }
    {
        let shared = &self.table.shared;
        for _ in rt.forever() {
            let found = shared.peek(0);
            if found % 2 == 0 {
                let was = shared.compare_exchange::<Claim<W>>(&mut pass.seat, 0, found, found + 1);
                if was == found {
                    return shared.exchange(&mut pass.seat, 0, None).unwrap();
                }
            }
            if found % 2 == 1 {
                self.wait(rt, found);
            }
        }
        unreachable!()
    }

    /// Looks a short while for another word, and then sleeps until a pass gives.
    fn wait<R: Wait>(&self, rt: &R, found: u64) {
        let shared = &self.table.shared;
        for _ in 0..LOOKS {
            if shared.peek(0) != found {
                return;
            }
            spin_loop();
        }
        self.waiting.fetch_add(1, Ordering::SeqCst);
        shared.park(rt, 0, (found % (1 << 32)) as u32);
        self.waiting.fetch_sub(1, Ordering::SeqCst);
    }

    /// Gives the value and the turn back, and wakes one that waits. The pass has the facts of the
    /// actor from then on.
    ///
    /// It cannot be refused, and takes no memory.
    pub fn give<R: Wait, A: Knowing<W::Fact>>(
        &self,
        rt: &R,
        pass: &mut PassOf<W>,
        value: W,
        actor: &A,
    )
        requires own { IsOf pass.old self.now }
        requires turn { (known pass.old).turn ≡ true }
        requires few { end_of (W.window value) < 2 ^ 63 }
        requires fixed { (known pass.old).fixed ≡ Some (W.fixed value) }
        requires window { OfTaken (known pass.old) (λ taken. MayGive W.base_after W.caller_of (known pass.old).caller (W.window taken) (W.window value)) }
        requires calls { OfTaken (known pass.old) (λ taken. RisesByOne (W.calls taken) (W.calls value)) }
        requires told { OfTaken (known pass.old) (λ taken. W.tells value → W.tells taken) }
        requires facts { All (W.holds value) (A.facts actor.now) }
        requires keeps { OfTaken (known pass.old) (λ taken. W.keeps taken value (known pass.old).facts (A.facts actor.now)) }
        ensures own { OfOne pass.old pass.new }
        ensures view { known pass.new ≡ after_give W.window W.calls (A.facts actor.now) (known pass.old) value }
        ensures order { InOrder W.base_after (known pass.new).seen }
        ensures one { OfTaken (known pass.old) (λ taken. end_of (W.window value) ≤ end_of (W.window taken) + 1) }
        ensures made { (known pass.new).made ≤ (known pass.old).made + 1 }
    {
        let _ = rt;
        self.give_knowing::<Brand, A>(pass, value, actor);
    }

    fn give_knowing<N: Picked<W::Fact>, A: Knowing<W::Fact>>(
        &self,
        pass: &mut PassOf<W>,
        value: W,
        _actor: &A,
    )
        requires own { IsOf pass.old self.now }
        requires held { (known pass.old).turn ≡ true }
        requires few { end_of (W.window value) < 2 ^ 63 }
        requires fixed { (known pass.old).fixed ≡ Some (W.fixed value) }
        requires window { OfTaken (known pass.old) (λ taken. MayGive W.base_after W.caller_of (known pass.old).caller (W.window taken) (W.window value)) }
        requires told { OfTaken (known pass.old) (λ taken. W.tells value → W.tells taken) }
        requires facts { All (W.holds value) N.facts }
        requires keeps { OfTaken (known pass.old) (λ taken. W.keeps taken value (known pass.old).facts N.facts) }
        ensures own { OfOne pass.old pass.new }
        ensures view { known pass.new ≡ after_give W.window W.calls N.facts (known pass.old) value }
        ensures order { InOrder W.base_after (known pass.new).seen }
    {
        let shared = &self.table.shared;
        let word = 2 * value.made();
        drop(shared.exchange(&mut pass.seat, 0, Some(value)));
        shared.store::<Leave<W, N>>(&mut pass.seat, 0, word);
        if self.waiting.load(Ordering::SeqCst) != 0 {
            shared.wake_one(0);
        }
    }

    /// A pass with the next caller number, which has seen what `pass` has, and no facts.
    ///
    /// It cannot be refused, and takes no memory.
    pub fn split(&self, pass: &mut PassOf<W>) -> PassOf<W>
        requires own { IsOf pass.old self.now }
        requires free { (known pass.old).turn ≡ false }
        requires first { (known pass.old).caller ≡ 0 }
        requires few { (known pass.old).count + 2 < 2 ^ 32 }
        ensures own { OfOne pass.old pass.new × IsOf result self.now }
        ensures view { known pass.new ≡ after_split (known pass.old) }
        ensures new { known result ≡ split_off (known pass.old) }
    {
        let seat = self.table.shared.split_seat::<Number>(&mut pass.seat);
        pass.count += 1;
        Pass {
            caller: pass.count,
            count: 0,
            seat,
        }
    }

    /// Tells each of two passes what the other has seen: of their last windows one follows the
    /// other, and both have seen it from then on. Nothing else changes.
    pub fn meet(&self, pass: &mut PassOf<W>, other: &mut PassOf<W>)
        requires own { IsOf pass.old self.now × IsOf other.old self.now }
        ensures own { OfOne pass.old pass.new × OfOne other.old other.new }
        ensures later { (x : Window W.Entry W.Base) × IsLater W.base_after (last_of (known pass.old).seen) (last_of (known other.old).seen) x × (known pass.new ≡ sees (known pass.old) x) × (known other.new ≡ sees (known other.old) x) }
        ensures order { InOrder W.base_after (known pass.new).seen × InOrder W.base_after (known other.new).seen }
    {
        let note = self.table.shared.split_seat::<Note>(&mut other.seat);
        self.learn(pass, note);
        let back = self.table.shared.split_seat::<Note>(&mut pass.seat);
        self.learn(other, back);
    }

    /// As `meet`, and the other pass is given up, its facts with it.
    pub fn join(&self, pass: &mut PassOf<W>, other: PassOf<W>)
        requires own { IsOf pass.old self.now × IsOf other self.now }
        requires free { ((known pass.old).turn ≡ false) × ((known other).turn ≡ false) }
        ensures own { OfOne pass.old pass.new }
        ensures later { (x : Window W.Entry W.Base) × IsLater W.base_after (last_of (known pass.old).seen) (last_of (known other).seen) x × (known pass.new ≡ sees (known pass.old) x) }
        ensures order { InOrder W.base_after (known pass.new).seen }
    {
        let Pass {
            caller: _,
            count: _,
            seat,
        } = other;
        self.learn(pass, seat);
    }

    /// The pass sees the later of its last window and that of a seat, which is given up.
    fn learn(&self, pass: &mut PassOf<W>, other: Seat<Option<W>, ViewOf<W>>)
        requires own { IsOf pass.old self.now × (other.table_id ≡ self.now.table.shared.table_id) }
        requires bare { other.me.1 ≡ [] }
        requires begun { is_some (last_of other.me.0.seen) ≡ true }
        ensures own { OfOne pass.old pass.new }
        ensures later { (x : Window W.Entry W.Base) × IsLater W.base_after (last_of (known pass.old).seen) (last_of other.me.0.seen) x × (known pass.new ≡ sees (known pass.old) x) }
        ensures order { InOrder W.base_after (known pass.new).seen }
    {
        let shared = &self.table.shared;
        shared.join_seat::<Tell>(&mut pass.seat, other);
        let _ = shared.load::<Look<W>>(&mut pass.seat, 0);
    }

    /// Ends the turnstile, and gives the value back.
    ///
    /// It does not wait. `None` comes where the word shows that some pass took the value and never
    /// gave it.
    pub fn close(self, pass: PassOf<W>) -> Option<W>
        requires own { IsOf pass self }
        ensures found { IfSome result (λ w. Finds W.window W.base_after W.fixed W.caller_of W.holds W.tells (known pass) w) }
    {
        let Turnstile { table, waiting: _ } = self;
        let Pass {
            caller: _,
            count: _,
            seat,
        } = pass;
        let mut closed = table.close_with(seat);
        let word = closed.word(0);
        let value = closed.take(0);
        closed.free();
        if word % 2 == 0 { value } else { None }
    }
}

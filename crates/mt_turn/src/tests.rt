mod book;

ghost use Rattle.std.specs.Prelude.{◌≡◌, [], ◌∷◌, false, IfOk};
ghost use Rattle.mt_turn.specs.Passes.{known, IsOf};
ghost use Rattle.mt_turn.specs.Windows.{HasSeen};

use crate::{PassOf, Turnstile};
use book::{Book, Line, Reader};
use std::alloc::Global;
use std::sync::Wait;
use std::test::Fail;
use std::thread::{Threads, join};

/// A turnstile over a book of one line, which caller 0 wrote.
fn open(alloc: Global) -> Result<(Turnstile<Book>, PassOf<Book>), Fail>
    ensures { IfOk result (λ r. IsOf r.1 r.0 × ((known r.1).turn ≡ false) × ((known r.1).caller ≡ 0) × ((known r.1).count ≡ 0)) }
{
    let book = Book::begun(alloc)?;
    match Turnstile::new(alloc, book) {
        Ok(made) => Ok(made),
        Err(_) => Err(Fail::from("no memory for a turnstile")),
    }
}

/// Writes one line in a turn, and gives what the pass knows from then on.
fn write<R: Wait>(rt: &R, shared: &Turnstile<Book>, pass: &mut PassOf<Book>, number: u64) -> Reader
    requires own { IsOf pass.old shared.now }
    requires free { (known pass.old).turn ≡ false }
    ensures own { IsOf pass.new shared.now }
    ensures free { (known pass.new).turn ≡ false }
    ensures knows { (known pass.new).facts ≡ result.least ∷ [] }
    ensures seen { HasSeen (known pass.new).seen result.least }
{
    let mut book = shared.take(rt, pass);
    book.write(pass.caller(), number);
    let reader = book.reader();
    shared.give(rt, pass, book, &reader);
    reader
}

/// After they met, the one has seen as many lines as the other.
fn meet(
    shared: &Turnstile<Book>,
    pass: &mut PassOf<Book>,
    other: &mut PassOf<Book>,
    reader: &Reader,
)
    requires own { IsOf pass.old shared.now × IsOf other.old shared.now }
    requires free { ((known pass.old).turn ≡ false) × ((known other.old).turn ≡ false) }
    requires seen { HasSeen (known other.old).seen reader.now.least }
    ensures own { IsOf pass.new shared.now × IsOf other.new shared.now }
    ensures free { ((known pass.new).turn ≡ false) × ((known other.new).turn ≡ false) }
    ensures seen { HasSeen (known pass.new).seen reader.now.least }
{
    shared.meet(pass, other);
}

/// Cuts the first line off in a turn. The pass keeps what it knows.
fn cut<R: Wait>(rt: &R, shared: &Turnstile<Book>, pass: &mut PassOf<Book>, reader: &Reader)
    requires own { IsOf pass.old shared.now }
    requires free { (known pass.old).turn ≡ false }
    requires knows { (known pass.old).facts ≡ reader.now.least ∷ [] }
    ensures own { IsOf pass.new shared.now }
    ensures free { (known pass.new).turn ≡ false }
    ensures knows { (known pass.new).facts ≡ reader.now.least ∷ [] }
{
    let mut book = shared.take(rt, pass);
    book.cut();
    shared.give(rt, pass, book, reader);
}

fn write_many<R: Wait>(
    rt: &R,
    shared: &Turnstile<Book>,
    mut pass: PassOf<Book>,
    turns: u64,
) -> PassOf<Book>
    requires own { IsOf pass shared.now }
    requires free { (known pass).turn ≡ false }
    ensures own { IsOf result shared.now }
    ensures free { (known result).turn ≡ false }
{
    for number in 0..turns {
        write(rt, shared, &mut pass, number);
    }
    pass
}

/// Two threads write so many lines each, and the book is closed.
fn write_both<R: Threads + Wait + Sync>(
    rt: &R,
    shared: Turnstile<Book>,
    first: PassOf<Book>,
    second: PassOf<Book>,
    turns: u64,
) -> Option<Book>
    requires own { IsOf first shared × IsOf second shared }
    requires free { ((known first).turn ≡ false) × ((known second).turn ≡ false) }
{
    let (mut first, second) = join(
        rt,
        || -> PassOf<Book>
            requires { IsOf first shared × ((known first).turn ≡ false) }
            ensures { IsOf result shared × ((known result).turn ≡ false) }
        { write_many(rt, &shared, first, turns) },
        || -> PassOf<Book>
            requires { IsOf second shared × ((known second).turn ≡ false) }
            ensures { IsOf result shared × ((known result).turn ≡ false) }
        { write_many(rt, &shared, second, turns) },
    );
    shared.join(&mut first, second);
    shared.close(first)
}

/// The numbers of the caller's lines from `from` on are 0, 1 and so on, and there are so many.
fn has_in_order(lines: &[Line], caller: u32, count: u64) -> bool {
    let mut next = 0u64;
    for line in lines {
        if line.caller == caller {
            if line.number != next {
                return false;
            }
            next = next.saturating_add(1);
        }
    }
    next == count
}

#[test]
fn a_turn_of_another_pass_is_seen(rt: HostRuntime) -> Result<(), Fail> {
    let (shared, mut first) = open(rt.alloc())?;
    let mut second = shared.split(&mut first);
    assert!(rt; (first.caller(), second.caller()) == (0, 1));
    let reader = write(&rt, &shared, &mut second, 0);
    assert!(rt; reader.least == 2);
    meet(&shared, &mut first, &mut second, &reader);
    shared.join(&mut first, second);
    let book = shared.close(first).ok_or("the turn is held")?;
    assert!(rt; book.lines.len() == 2);
    assert!(rt; has_in_order(&book.lines, 0, 1));
    assert!(rt; has_in_order(&book.lines, 1, 1));
    Ok(())
}

#[test]
fn a_turn_after_a_cut_follows(rt: HostRuntime) -> Result<(), Fail> {
    let (shared, mut first) = open(rt.alloc())?;
    let mut second = shared.split(&mut first);
    let third = shared.split(&mut first);
    let reader = write(&rt, &shared, &mut second, 0);
    cut(&rt, &shared, &mut second, &reader);
    write(&rt, &shared, &mut first, 1);
    shared.join(&mut first, third);
    let book = shared.close(second).ok_or("the turn is held")?;
    assert!(rt; (book.first, book.lines.len()) == (1, 2));
    assert!(rt; book.before.is_some());
    Ok(())
}

#[test]
fn close_of_a_held_turn(rt: HostRuntime) -> Result<(), Fail> {
    let (shared, mut first) = open(rt.alloc())?;
    let second = shared.split(&mut first);
    let book = shared.take(&rt, &mut first);
    assert!(rt; shared.close(second).is_none());
    assert!(rt; book.lines.len() == 1);
    Ok(())
}

#[test]
fn two_threads_lose_no_turn(rt: HostRuntime) -> Result<(), Fail> {
    let (shared, mut zero) = open(rt.alloc())?;
    let first = shared.split(&mut zero);
    let second = shared.split(&mut zero);
    let book = write_both(&rt, shared, first, second, 10_000).ok_or("the turn is held")?;
    assert!(rt; book.lines.len() == 20_001);
    assert!(rt; has_in_order(&book.lines, 1, 10_000));
    assert!(rt; has_in_order(&book.lines, 2, 10_000));
    Ok(())
}

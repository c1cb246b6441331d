// Participants in their table: a place as fourteen numbers and back, and a participant's record in its row of 21 words.
//
// The Rust keeps its place on the call stack, and a `Local` in memory of its own. Here a participant stands in a lent list between two
// steps, so each of the thirty places has a number, and what it carries has a column. The first two words of a row are shared (crate
// `words`); the nineteen after them are the participant's own, and only these are read and written here.
//
// Each promise cites the definition of like name: specs/Codec and specs/Layout of `definition`, and specs/Stores. Neither `encode` nor `decode` is a
// `From`: an impl would have to stand with the types, in `definition`; `decode` needs `pointee` of `flow`, which stands above that, and what writes
// a code has a `requires`, which `From` cannot have. What `decode` calls reads a few columns of a code each, and is no conversion of one.
//
// A pointer is written as 2(i + 1), so what writes one asks that this fits a word, `PointersFit`: it does for any place that was read, and for any that is
// in range (proofs/Fits). Eight functions ask it by `requires`, and by no type: places and pointers are the definition's types, which hold any number.
#![tactic(auto)]

ghost use Rattle.std.specs.Prelude.{◌≡◌, ◌+◌, ◌*◌, ◌≤◌, length};
ghost use Rattle.definition.specs.Codec.{bare, pointing, walking, popping, then_code, pushing, code_of};
ghost use Rattle.definition.specs.Codec.{cursor_of, try_of, pops_of, then_of, place_of, record_of, participant_of};
ghost use Rattle.definition.specs.Layout.{participant_words, cell, record_at, record_words};
ghost use Rattle.records.specs.Stores.{PointersFit, stored_record};

use definition::{
    Code, Counts, Cursor, Deferring, Node, Owner, Participant, Place, PopAt, Pops, Pred, Ptr,
    PushAt, Record, RegisterAt, RepinAt, Slot, Then, Try, WalkAt,
};
use epoch::Epoch;
use flow::links::{pointee, pointer};
use lent::PARTICIPANT_WORDS;

// Words of a row that are shared, and of the participant's record, which follows them.
const SHARED_WORDS: usize = 2;

const RECORD_WORDS: usize = PARTICIPANT_WORDS - SHARED_WORDS;

// ---- a place as numbers

// A code with nothing in its columns.
const EMPTY: Code = Code {
    number: 0,
    then: 0,
    owner: 0,
    epoch: 0,
    left: 0,
    pred: 0,
    curr: 0,
    succ: 0,
    old: 0,
    popped: 0,
    new: 0,
    onto: 0,
    next: 0,
    token: 0,
};

// Returns the code of a place that carries no more than an owner and an epoch.
fn bare_code(number: u64, owner: u64, epoch: u64) -> Code
    ensures { result ≡ bare number owner epoch }
{
    Code {
        number,
        owner,
        epoch,
        ..EMPTY
    }
}

// Returns the code of a place that carries a pointer.
fn pointing_code(number: u64, succ: u64) -> Code
    ensures { result ≡ pointing number succ }
{
    Code {
        number,
        succ,
        ..EMPTY
    }
}

// Returns the code of a place of `try_advance`, which walks the list: what its try and its iteration carry.
fn walking_code(t: Try, number: u64, pred: u64, curr: u64, succ: u64) -> Code
    ensures { result ≡ walking t number pred curr succ }
{
    Code {
        pred,
        curr,
        succ,
        ..bare_code(number, u64::from(t.owner), t.epoch.0)
    }
}

// Returns the code of a place with what its pops carry.
fn popping_code(p: Pops, number: u64, old: u64, popped: u64) -> Code
    ensures { result ≡ popping p number old popped }
{
    Code {
        left: p.left,
        old,
        popped,
        ..bare_code(number, u64::from(p.owner), p.epoch.0)
    }
}

// Returns the columns of an item that waits for a push, and of what goes on after it.
#[tactic(auto, using(crate::proofs::Fits::pointers), unfolding(definition::specs::Codec::then_code))]
fn deferring_code(d: Deferring) -> Code
    requires { PointersFit (then_code (Then.Defer d)) }
    ensures { result ≡ then_code (Then.Defer d) }
{
    match d {
        Deferring::Token(token) => Code { token, ..EMPTY },
        Deferring::Slot(t, Cursor { pred, curr }, succ) => Code {
            then: 1,
            ..walking_code(t, 0, pointer(Ptr::from(pred)), curr.0, pointer(succ))
        },
        Deferring::Node(p, old, popped) => Code {
            then: 2,
            ..popping_code(p, 0, old.0, popped.0)
        },
    }
}

// Returns the columns of what a push goes on with.
#[tactic(auto, unfolding(definition::specs::Codec::then_code))]
fn then_code(f: Then) -> Code
    requires { PointersFit (then_code f) }
    ensures { result ≡ then_code f }
{
    match f {
        Then::Defer(d) => deferring_code(d),
        Then::Flush => Code { then: 3, ..EMPTY },
        Then::Finalize => Code { then: 4, ..EMPTY },
    }
}

// Returns the code of a place with what its push carries.
fn pushing_code(f: Then, number: u64, new: u64, onto: u64, next: u64) -> Code
    requires { PointersFit (then_code f) }
    ensures { result ≡ pushing f number new onto next }
{
    Code {
        number,
        new,
        onto,
        next,
        ..then_code(f)
    }
}

// Returns the code of a place of an insertion: 1 to 3.
#[tactic(auto, using(crate::proofs::Fits::pointers), unfolding(definition::specs::Codec::code_of))]
fn register_code(a: RegisterAt) -> Code
    requires { PointersFit (code_of (Place.Register a)) }
    ensures { result ≡ code_of (Place.Register a) }
{
    match a {
        RegisterAt::Head => bare_code(1, 0, 0),
        RegisterAt::Next(next) => pointing_code(2, pointer(next)),
        RegisterAt::Link(next) => pointing_code(3, pointer(next)),
    }
}

// Returns the code of a place of a repin: 6 to 8.
#[tactic(auto, unfolding(definition::specs::Codec::code_of))]
fn repin_code(a: RepinAt) -> Code
    ensures { result ≡ code_of (Place.Repin a) }
{
    match a {
        RepinAt::Word => bare_code(6, 0, 0),
        RepinAt::Epoch(e) => bare_code(7, 0, e.0),
        RepinAt::Store(e) => bare_code(8, 0, e.0),
    }
}

// Returns the code of a place of an iteration: 11, 12, 14 and 15. (13 is `AdvanceWord`, between an entry's next and the one after it.)
#[tactic(auto, using(crate::proofs::Fits::pointers), unfolding(definition::specs::Codec::code_of))]
fn walk_code(t: Try, a: WalkAt) -> Code
    requires { PointersFit (code_of (Place.Walk t a)) }
    ensures { result ≡ code_of (Place.Walk t a) }
{
    match a {
        WalkAt::Head => walking_code(t, 11, 0, 0, 0),
        WalkAt::Next(Cursor { pred, curr }) => {
            walking_code(t, 12, pointer(Ptr::from(pred)), curr.0, 0)
        }
        WalkAt::Unlink(Cursor { pred, curr }, succ) => {
            walking_code(t, 14, pointer(Ptr::from(pred)), curr.0, pointer(succ))
        }
        WalkAt::Stalled => walking_code(t, 15, 0, 0, 0),
    }
}

// Returns the code of a place of a pop: 17 to 21.
#[tactic(auto, unfolding(definition::specs::Codec::code_of))]
fn pop_code(p: Pops, a: PopAt) -> Code
    ensures { result ≡ code_of (Place.Pop p a) }
{
    match a {
        PopAt::Head => popping_code(p, 17, 0, 0),
        PopAt::Next(head) => popping_code(p, 18, head.0, 0),
        PopAt::Exchange(head, next) => popping_code(p, 19, head.0, next.0),
        PopAt::Tail(head, next) => popping_code(p, 20, head.0, next.0),
        PopAt::TailMove(head, next) => popping_code(p, 21, head.0, next.0),
    }
}

// Returns the code of a place of a push, with what it goes on with: 22 to 27.
#[tactic(auto, unfolding(definition::specs::Codec::code_of))]
fn push_code(f: Then, a: PushAt) -> Code
    requires { PointersFit (then_code f) }
    ensures { result ≡ code_of (Place.Push f a) }
{
    match a {
        PushAt::Epoch => pushing_code(f, 22, 0, 0, 0),
        PushAt::Tail(new) => pushing_code(f, 23, new.0, 0, 0),
        PushAt::Next(new, onto) => pushing_code(f, 24, new.0, onto.0, 0),
        PushAt::Help(new, onto, next) => pushing_code(f, 25, new.0, onto.0, next.0),
        PushAt::Link(new, onto) => pushing_code(f, 26, new.0, onto.0, 0),
        PushAt::Move(new, onto) => pushing_code(f, 27, new.0, onto.0, 0),
    }
}

// Returns a place as numbers: the thirty by their numbers, as document 01 names that form.
#[tactic(auto, using(crate::proofs::Fits::word_fits, crate::proofs::Fits::push_fits), unfolding(definition::specs::Codec::code_of))]
pub fn encode(place: Place) -> Code
    requires { PointersFit (code_of place) }
    ensures { result ≡ code_of place }
{
    match place {
        Place::Rest => bare_code(0, 0, 0),
        Place::Register(a) => register_code(a),
        Place::PinEpoch(k) => bare_code(4, u64::from(k), 0),
        Place::PinWord(k, e) => bare_code(5, u64::from(k), e.0),
        Place::Repin(a) => repin_code(a),
        Place::UnpinWord => bare_code(9, 0, 0),
        Place::AdvanceEpoch(k) => bare_code(10, u64::from(k), 0),
        Place::Walk(t, a) => walk_code(t, a),
        Place::AdvanceWord(t, curr, succ) => walking_code(t, 13, 0, curr.0, pointer(succ)),
        Place::AdvanceStore(t) => walking_code(t, 16, 0, 0, 0),
        Place::Pop(p, a) => pop_code(p, a),
        Place::Push(f, a) => push_code(f, a),
        Place::FinalWord => bare_code(28, 0, 0),
        Place::FinalTag => bare_code(29, 0, 0),
    }
}

// ---- and back

// Returns where an iteration stands.
#[tactic(auto, using(definition::proofs::Preds::pred_read))]
fn cursor_of(c: Code) -> Cursor
    ensures { result ≡ cursor_of c }
{
    Cursor {
        pred: Pred::from(pointee(c.pred)),
        curr: Slot(c.curr),
    }
}

// Returns a try of an advance.
fn try_of(c: Code) -> Try
    ensures { result ≡ try_of c }
{
    Try {
        owner: Owner::from(c.owner),
        epoch: Epoch(c.epoch),
    }
}

// Returns the pops of a collect.
fn pops_of(c: Code) -> Pops
    ensures { result ≡ pops_of c }
{
    Pops {
        owner: Owner::from(c.owner),
        epoch: Epoch(c.epoch),
        left: c.left,
    }
}

// Returns what a push goes on with.
#[tactic(auto, unfolding(definition::specs::Codec::then_of, definition::specs::Base::branch))]
fn then_of(c: Code) -> Then
    ensures { result ≡ then_of c }
{
    match c.then {
        0 => Then::Defer(Deferring::Token(c.token)),
        1 => Then::Defer(Deferring::Slot(try_of(c), cursor_of(c), pointee(c.succ))),
        2 => Then::Defer(Deferring::Node(pops_of(c), Node(c.old), Node(c.popped))),
        3 => Then::Flush,
        _ => Then::Finalize,
    }
}

// Returns the place that a code says: by its number, and with what its columns carry for that place.
#[tactic(auto, unfolding(definition::specs::Codec::place_of, definition::specs::Base::branch))]
pub fn decode(c: Code) -> Place
    ensures { result ≡ place_of c }
{
    match c.number {
        0 => Place::Rest,
        1 => Place::Register(RegisterAt::Head),
        2 => Place::Register(RegisterAt::Next(pointee(c.succ))),
        3 => Place::Register(RegisterAt::Link(pointee(c.succ))),
        4 => Place::PinEpoch(Owner::from(c.owner)),
        5 => Place::PinWord(Owner::from(c.owner), Epoch(c.epoch)),
        6 => Place::Repin(RepinAt::Word),
        7 => Place::Repin(RepinAt::Epoch(Epoch(c.epoch))),
        8 => Place::Repin(RepinAt::Store(Epoch(c.epoch))),
        9 => Place::UnpinWord,
        10 => Place::AdvanceEpoch(Owner::from(c.owner)),
        11 => Place::Walk(try_of(c), WalkAt::Head),
        12 => Place::Walk(try_of(c), WalkAt::Next(cursor_of(c))),
        13 => Place::AdvanceWord(try_of(c), Slot(c.curr), pointee(c.succ)),
        14 => Place::Walk(try_of(c), WalkAt::Unlink(cursor_of(c), pointee(c.succ))),
        15 => Place::Walk(try_of(c), WalkAt::Stalled),
        16 => Place::AdvanceStore(try_of(c)),
        17 => Place::Pop(pops_of(c), PopAt::Head),
        18 => Place::Pop(pops_of(c), PopAt::Next(Node(c.old))),
        19 => Place::Pop(pops_of(c), PopAt::Exchange(Node(c.old), Node(c.popped))),
        20 => Place::Pop(pops_of(c), PopAt::Tail(Node(c.old), Node(c.popped))),
        21 => Place::Pop(pops_of(c), PopAt::TailMove(Node(c.old), Node(c.popped))),
        22 => Place::Push(then_of(c), PushAt::Epoch),
        23 => Place::Push(then_of(c), PushAt::Tail(Node(c.new))),
        24 => Place::Push(then_of(c), PushAt::Next(Node(c.new), Node(c.onto))),
        25 => Place::Push(
            then_of(c),
            PushAt::Help(Node(c.new), Node(c.onto), Node(c.next)),
        ),
        26 => Place::Push(then_of(c), PushAt::Link(Node(c.new), Node(c.onto))),
        27 => Place::Push(then_of(c), PushAt::Move(Node(c.new), Node(c.onto))),
        28 => Place::FinalWord,
        _ => Place::FinalTag,
    }
}

// ---- records in their table

// Returns the record in a participant's row. (By the columns' numbers: a pattern of the row would name each word on a line of its own, and
// each column once more below.)
#[tactic(auto, using(crate::proofs::Laws::row_words), unfolding(definition::specs::Layout::record_at))]
pub fn load_record(row: &[u64; PARTICIPANT_WORDS]) -> Record
    ensures { result ≡ record_at (cell participant_words row.now 0) }
{
    Record {
        counts: Counts {
            guards: row[2],
            handles: row[3],
            pins: row[4],
        },
        held: row[5],
        share: row[6],
        code: Code {
            number: row[7],
            then: row[8],
            owner: row[9],
            epoch: row[10],
            left: row[11],
            pred: row[12],
            curr: row[13],
            succ: row[14],
            old: row[15],
            popped: row[16],
            new: row[17],
            onto: row[18],
            next: row[19],
            token: row[20],
        },
    }
}

// Returns the participant in its row.
#[tactic(auto, unfolding(definition::specs::Codec::participant_of))]
pub fn load(row: &[u64; PARTICIPANT_WORDS]) -> Participant
    ensures { result ≡ participant_of (record_at (cell participant_words row.now 0)) }
{
    let Record {
        counts,
        held,
        share,
        code,
    } = load_record(row);
    Participant {
        counts,
        held,
        share,
        place: decode(code),
    }
}

// Returns the nineteen words of a record, in the order of its row.
#[tactic(auto, unfolding(definition::specs::Layout::record_words))]
fn record_words(r: Record) -> [u64; RECORD_WORDS]
    ensures { result ≡ record_words r }
{
    let n = r.counts;
    let c = r.code;
    [
        n.guards, n.handles, n.pins, r.held, r.share, c.number, c.then, c.owner, c.epoch, c.left,
        c.pred, c.curr, c.succ, c.old, c.popped, c.new, c.onto, c.next, c.token,
    ]
}

// Stores the record of participant `p`. Its two shared words stay as they are.
// (It takes the list and not the row: of a list whose row was lent by `as_chunks_mut` nothing is known afterwards, and of a function that
// lends the row as `&mut [u64; 21]` the check proves no lending clause, since it does not follow a part by its range.)
#[tactic(auto, using(crate::proofs::Laws::copied))]
pub fn store_record(participants: &mut [u64], p: usize, r: Record)
    requires { p * 21 + 21 ≤ length participants.old }
    ensures { participants.new ≡ stored_record participants.old p r }
{
    let at = p * PARTICIPANT_WORDS + SHARED_WORDS;
    participants[at..at + RECORD_WORDS].copy_from_slice(&record_words(r));
}

// Stores participant `p`.
#[tactic(auto, unfolding(definition::specs::Codec::record_of))]
pub fn store(participants: &mut [u64], p: usize, o: Participant)
    requires { (p * 21 + 21 ≤ length participants.old) × PointersFit (code_of o.place) }
    ensures { participants.new ≡ stored_record participants.old p (record_of o) }
{
    let Participant {
        counts,
        held,
        share,
        place,
    } = o;
    let r = Record {
        counts,
        held,
        share,
        code: encode(place),
    };
    store_record(participants, p, r);
}

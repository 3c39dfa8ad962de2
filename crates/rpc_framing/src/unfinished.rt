//! What has come of a frame that is not yet whole, and the frames of a piece.
ghost use Rattle.std.specs.Prelude.{◌≡◌, ◌+◌, ◌-◌, ◌++◌, ◌≤◌, [], ◌∷◌, length, take, drop, OnOk, OnErr, IfOk, IfSome, option_map, vec_len};
ghost use Rattle.std.specs.VecDeque.{deque_capacity};
ghost use Rattle.rpc_framing.specs.Reading.{bodies_of};
ghost use Rattle.rpc_framing.specs.Stages.{whole_length};
ghost use Rattle.rpc_framing.specs.Steps.{Reaches, IsShort, Stands, Accepts};

use crate::header::{Headway, Stage, follow_header};
use crate::place::Departure;
use hl_base::OutOfMemory;
use std::alloc::Global;
use std::collections::VecDeque;
use std::mem;

/// What has come of a frame.
#[derive(Drop)]
pub(crate) struct Unfinished {
    pub(crate) stage: Stage,
    pub(crate) header: Vec<u8>,
    pub(crate) body: Vec<u8>,
}

/// How far a piece takes a frame.
#[derive(Clone, Copy)]
pub(crate) enum Reach {
    /// The piece ends within the frame. So many of its bytes belong to the header, which comes to this stage.
    Within(usize, Stage),

    /// So many bytes of the piece belong to the header, and the frame ends after so many.
    Whole(usize, usize),

    /// With so many bytes of the piece no frame begins so.
    Dead(usize, Departure),
}

/// The first fault in a piece.
#[derive(Clone, Copy)]
pub(crate) struct Astray {
    /// The number of the piece's bytes up to it.
    pub(crate) count: usize,

    /// What is wrong with the last of them.
    pub(crate) departure: Departure,
}

/// How far a piece takes a frame whose header stands at a stage, and of whose body `held` bytes have come.
fn how_far(stage: Stage, held: usize, piece: &[u8]) -> Reach
    requires { IsShort stage held }
    ensures { Reaches stage held piece.now result }
{
    match follow_header(stage, piece) {
        Headway::Open(next) => Reach::Within(piece.len(), next),
        Headway::Dead(count, departure) => Reach::Dead(count, departure),
        Headway::Whole(size, length, last) => {
            let missing = length as usize - held;
            if piece.len() - size < missing {
                Reach::Within(size, last)
            } else {
                Reach::Whole(size, size + missing)
            }
        }
    }
}

impl Unfinished {
    /// Nothing of a frame.
    pub(crate) fn new(alloc: Global) -> Unfinished
        ensures stands { Stands result.stage result.header.items result.body.items }
        ensures header { result.header.items ≡ [] }
        ensures body { result.body.items ≡ [] }
    {
        Unfinished {
            stage: Stage::START,
            header: Vec::new(alloc),
            body: Vec::new(alloc),
        }
    }

    /// How many bytes of the body are missing, where the header is whole.
    pub(crate) fn missing(&self) -> Option<usize>
        requires { Stands self.now.stage self.now.header.items self.now.body.items }
        ensures { result ≡ option_map (λ says. says - length self.now.body.items) (whole_length self.now.stage) }
    {
        match self.stage.length() {
            Some(length) => Some(length as usize - self.body.len()),
            None => None,
        }
    }

    /// Takes a piece of which the first `size` bytes belong to the header. An `Err` changes nothing.
    fn grow(&mut self, piece: &[u8], size: usize, stage: Stage) -> Result<(), OutOfMemory>
        requires { size ≤ length piece.now }
        ensures header { OnOk result (self.new.header.items ≡ self.old.header.items ++ take size piece.now) }
        ensures body { OnOk result (self.new.body.items ≡ self.old.body.items ++ drop size piece.now) }
        ensures stage { OnOk result (self.new.stage ≡ stage) }
        ensures err_header { OnErr result (self.new.header.items ≡ self.old.header.items) }
        ensures err_body { OnErr result (self.new.body.items ≡ self.old.body.items) }
        ensures err_stage { OnErr result (self.new.stage ≡ self.old.stage) }
    {
        let (head, rest) = piece.split_at(size);
        self.header.reserve(head.len())?;
        self.body.extend_from_slice(rest)?;
        self.header.extend_from_slice(head).unwrap();
        self.stage = stage;
        Ok(())
    }
}

/// What a piece at the beginning of a frame has: the bodies that are whole, what follows them, and the first fault, if
/// there is one.
#[derive(Drop)]
struct Ahead {
    bodies: VecDeque<Vec<u8>>,
    rest: Unfinished,
    fault: Option<Astray>,
}

/// Reads a piece at the beginning of a frame.
fn read_ahead(alloc: Global, piece: &[u8]) -> Result<Ahead, OutOfMemory>
    ensures stands { IfOk result (λ a. Stands a.rest.stage a.rest.header.items a.rest.body.items) }
    ensures reads { IfOk result (λ a.
        Accepts [] piece.now [] (bodies_of a.bodies.items) (a.rest.header.items ++ a.rest.body.items) a.fault) }
{
    let mut bodies = VecDeque::new(alloc);
    let mut left = piece;
    loop {
        let mut rest = Unfinished::new(alloc);
        match how_far(Stage::START, 0, left) {
            Reach::Whole(size, end) => {
                bodies.push_back(Vec::from_slice(alloc, &left[size..end])?)?;
                left = &left[end..];
            }
            Reach::Within(size, stage) => {
                rest.grow(left, size, stage)?;
                return Ok(Ahead {
                    bodies,
                    rest,
                    fault: None,
                });
            }
            Reach::Dead(count, departure) => {
                let count = piece.len() - left.len() + count;
                return Ok(Ahead {
                    bodies,
                    rest,
                    fault: Some(Astray { count, departure }),
                });
            }
        }
    }
}

/// Takes a piece of the stream behind what has come of a frame. `Ok` says the first fault, if there is one. An `Err`
/// changes nothing.
pub(crate) fn accept(
    alloc: Global,
    rest: &mut Unfinished,
    ready: &mut VecDeque<Vec<u8>>,
    piece: &[u8],
) -> Result<Option<Astray>, OutOfMemory>
    requires { Stands rest.old.stage rest.old.header.items rest.old.body.items }
    ensures stands { Stands rest.new.stage rest.new.header.items rest.new.body.items }
    ensures reads { IfOk result (λ fault.
        Accepts (rest.old.header.items ++ rest.old.body.items) piece.now (bodies_of ready.old.items)
        (bodies_of ready.new.items) (rest.new.header.items ++ rest.new.body.items) fault) }
    ensures within { IfOk result (λ fault. IfSome fault (λ astray. astray.count ≤ length piece.now)) }
    ensures err_rest { OnErr result (rest.new.header.items ++ rest.new.body.items ≡ rest.old.header.items ++ rest.old.body.items) }
    ensures err_ready { OnErr result (bodies_of ready.new.items ≡ bodies_of ready.old.items) }
{
    match how_far(rest.stage, rest.body.len(), piece) {
        Reach::Within(size, stage) => {
            rest.grow(piece, size, stage)?;
            Ok(None)
        }
        Reach::Whole(size, end) => complete(alloc, rest, ready, piece, size, end),
        Reach::Dead(count, departure) => Ok(Some(Astray { count, departure })),
    }
}

/// Makes room for so many bodies more, and takes the bytes with which a frame is whole, `size` of them its header. An `Err` changes
/// nothing.
fn make_room(
    rest: &mut Unfinished,
    ready: &mut VecDeque<Vec<u8>>,
    count: usize,
    front: &[u8],
    size: usize,
) -> Result<(), OutOfMemory>
    requires { size ≤ length front.now }
    ensures room { OnOk result (length ready.old.items + count ≤ deque_capacity ready.new) }
    ensures ready { ready.new.items ≡ ready.old.items }
    ensures body { OnOk result (rest.new.body.items ≡ rest.old.body.items ++ drop size front.now) }
    ensures err_header { OnErr result (rest.new.header.items ≡ rest.old.header.items) }
    ensures err_body { OnErr result (rest.new.body.items ≡ rest.old.body.items) }
    ensures err_stage { OnErr result (rest.new.stage ≡ rest.old.stage) }
{
    ready.reserve(count)?;
    rest.grow(front, size, rest.stage)
}

/// The body of a frame that is whole is ready, and those behind it, for all of which there is room; what follows them stands in the
/// frame's place. Their first fault.
fn take_up(rest: &mut Unfinished, ready: &mut VecDeque<Vec<u8>>, ahead: Ahead) -> Option<Astray>
    requires { length ready.old.items + (length ahead.bodies.items + 1) ≤ deque_capacity ready.old }
    ensures rest { rest.new ≡ ahead.rest }
    ensures ready { bodies_of ready.new.items ≡ bodies_of ready.old.items ++ rest.old.body.items ∷ bodies_of ahead.bodies.items }
    ensures fault { result ≡ ahead.fault }
{
    let Ahead {
        mut bodies,
        rest: next,
        fault,
    } = ahead;
    let whole = mem::replace(rest, next);
    ready.push_back_reserved(whole.body);
    ready.append(&mut bodies).unwrap();
    fault
}

/// Takes a piece of which the first `end` bytes complete the frame, `size` of them its header. `Ok` and `Err` are as for
/// `accept`.
fn complete(
    alloc: Global,
    rest: &mut Unfinished,
    ready: &mut VecDeque<Vec<u8>>,
    piece: &[u8],
    size: usize,
    end: usize,
) -> Result<Option<Astray>, OutOfMemory>
    requires stands { Stands rest.old.stage rest.old.header.items rest.old.body.items }
    requires reaches { Reaches rest.old.stage (vec_len rest.old.body) piece.now (Reach.Whole size end) }
    ensures stands { Stands rest.new.stage rest.new.header.items rest.new.body.items }
    ensures reads { IfOk result (λ fault.
        Accepts (rest.old.header.items ++ rest.old.body.items) piece.now (bodies_of ready.old.items)
        (bodies_of ready.new.items) (rest.new.header.items ++ rest.new.body.items) fault) }
    ensures within { IfOk result (λ fault. IfSome fault (λ astray. astray.count ≤ length piece.now)) }
    ensures err_rest { OnErr result (rest.new.header.items ++ rest.new.body.items ≡ rest.old.header.items ++ rest.old.body.items) }
    ensures err_ready { OnErr result (bodies_of ready.new.items ≡ bodies_of ready.old.items) }
{
    let ahead = read_ahead(alloc, &piece[end..])?;
    make_room(rest, ready, ahead.bodies.len() + 1, &piece[..end], size)?;
    Ok(take_up(rest, ready, ahead).map(|astray| Astray {
        count: end + astray.count,
        departure: astray.departure,
    }))
}

// What an order to the board aims at: nothing, GTCCR alone, one timer, or all three.

#![tactic(auto)]

ghost use Rattle.std.specs.Prelude.{◌≡◌};
ghost use Rattle.aims.specs.Aims.{stored_of, cast_of, aim_at, looked_at, written_at, aim_of};

use m328p::{Id, Place, placed};
use timer::calls::Call;

// A call on the board: of one timer by its id or by an address, or of all three.
#[derive(Clone, Copy)]
pub enum Order {
    Advance(Id),
    Next(Id),
    Reset(Id),
    Edge(Id, u8, u8),
    Route(Id, u8),
    Output(Id, u8),
    Read(u16),
    Peek(u16),
    Write(u16, u8),
    Sleep(u8),
    Wake,
    Reduce(u8),
    Tifr(Id),
    Timsk(Id),
    WriteTifr(Id, u8),
    WriteTimsk(Id, u8),
}

// What reaches all three timers: sleep in a mode, wake, the PRR byte, prescaler resets by GTCCR's bits, and the same after TSM takes a level.
#[derive(Clone, Copy)]
pub enum Cast {
    Sleep(u8),
    Wake,
    Reduce(u8),
    Prescale(u8),
    Synchronise(u8, u8),
}

// An address that is nobody's, GTCCR shown, a timer's own call, or what reaches all three, with GTCCR after it.
#[derive(Clone, Copy)]
pub enum Aim {
    Nowhere,
    Shown,
    Own(Id, Call),
    All(Cast, u8),
}

// Yields GTCCR after a byte is written: the reset bits are kept with TSM alone.
fn stored(value: u8) -> u8
    ensures { result ≡ stored_of value }
{
    if value < 0x80 { 0 } else { value & 0x83 }
}

// Yields what a byte written to GTCCR casts: TSM where bit 7 changes, then the prescaler resets.
#[tactic(auto, unfolding(crate::specs::Aims::cast_of))]
fn casting(gtccr: u8, value: u8) -> Cast
    ensures { result ≡ cast_of gtccr value }
{
    let level = value / 0x80;
    let mask = value & 3;
    if level == gtccr / 0x80 {
        return Cast::Prescale(mask);
    }
    Cast::Synchronise(level, mask)
}

// Yields what an order at a place aims at: GTCCR's own aim, or a timer's call on what stands there.
fn at(place: Place, gtccr: Aim, tifr: Call, timsk: Call, register: Call) -> Aim
    ensures { result ≡ aim_at place gtccr tifr timsk register }
{
    match place {
        Place::Gtccr => gtccr,
        Place::Tifr(id) => Aim::Own(id, tifr),
        Place::Timsk(id) => Aim::Own(id, timsk),
        Place::Register(id) => Aim::Own(id, register),
        Place::Nowhere => Aim::Nowhere,
    }
}

// Yields what a read or a peek aims at; a timer's own register is looked at by the call.
fn looked(place: Place, call: Call) -> Aim
    ensures { result ≡ looked_at place call }
{
    at(place, Aim::Shown, Call::Tifr, Call::Timsk, call)
}

// Yields what a write aims at.
fn written(place: Place, address: u16, value: u8, gtccr: u8) -> Aim
    ensures { result ≡ written_at place address value gtccr }
{
    at(
        place,
        Aim::All(casting(gtccr, value), stored(value)),
        Call::WriteTifr(value),
        Call::WriteTimsk(value),
        Call::Write(address, value),
    )
}

// Yields what an order aims at, with GTCCR as it stands.
pub fn aimed(order: Order, gtccr: u8) -> Aim
    ensures { result ≡ aim_of order gtccr }
{
    match order {
        Order::Advance(id) => Aim::Own(id, Call::Advance),
        Order::Next(id) => Aim::Own(id, Call::Next),
        Order::Reset(id) => Aim::Own(id, Call::Reset),
        Order::Edge(id, pin, level) => Aim::Own(id, Call::Edge(pin, level)),
        Order::Route(id, level) => Aim::Own(id, Call::Route(level)),
        Order::Output(id, level) => Aim::Own(id, Call::Output(level)),
        Order::Read(address) => looked(placed(address), Call::Read(address)),
        Order::Peek(address) => looked(placed(address), Call::Peek(address)),
        Order::Write(address, value) => written(placed(address), address, value, gtccr),
        Order::Sleep(mode) => Aim::All(Cast::Sleep(mode), gtccr),
        Order::Wake => Aim::All(Cast::Wake, gtccr),
        Order::Reduce(value) => Aim::All(Cast::Reduce(value), gtccr),
        Order::Tifr(id) => Aim::Own(id, Call::Tifr),
        Order::Timsk(id) => Aim::Own(id, Call::Timsk),
        Order::WriteTifr(id, ones) => Aim::Own(id, Call::WriteTifr(ones)),
        Order::WriteTimsk(id, mask) => Aim::Own(id, Call::WriteTimsk(mask)),
    }
}

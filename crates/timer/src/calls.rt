// The calls, each with its arguments.

#[derive(Clone, Copy)]
pub enum Call {
    Advance,
    Next,
    Read(u16),
    Peek(u16),
    Write(u16, u8),
    Tifr,
    Timsk,
    WriteTifr(u8),
    WriteTimsk(u8),
    Edge(u8, u8),
    Output(u8),
    Route(u8),
    Sleep(u8),
    Wake,
    Reduce(u16),
    Tsm(u8),
    Prescale(u8),
    Reset,
}

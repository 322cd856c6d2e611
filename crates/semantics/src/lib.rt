// What the machine's definitions and its code share: numbers and places.
#![tactic(auto)]

// Where a run stands: the next statement, the newest frame and its end, and what was read and written.
#[repr(C)]
#[derive(Clone, Copy)]
pub struct Registers {
    pub row: u32,
    pub base: u32,
    pub top: u32,
    pub read: u64,
    pub written: u64,
}

// An object: its first cell, the type it is used with, and its dynamic type.
#[derive(Clone, Copy)]
pub struct Place {
    pub address: u32,
    pub declared: u16,
    pub dynamic: u16,
}

// The numbers of a run; `fault` is the row of refusal, `at` is where the run ended, `mark` how many cells it needed.
#[repr(C)]
#[derive(Clone, Copy)]
pub struct RunResult {
    pub refusal: u32,
    pub fault: u32,
    pub outcome: u32,
    pub trap: u32,
    pub halt: i32,
    pub steps: u32,
    pub at: Registers,
    pub mark: u32,
}

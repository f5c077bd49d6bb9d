//! The tables of the made systems.
use roman_parts::Triple;

// The actions.
const START: u8 = 0;

const STOP: u8 = 1;

const MEND: u8 = 2;

const HOLD: u8 = 3;

const GO: u8 = 4;

// The only state of the environment.
const FLOOR: u8 = 0;

// The states of a worker.
const IDLE: u8 = 0;

const BUSY: u8 = 1;

const WORN: u8 = 2;

// The states of the target.
const REST: u8 = 0;

const WORK: u8 = 1;

const TIDY: u8 = 2;

const PAUSE: u8 = 3;

pub(crate) static ACTIONS: [&[u8]; 5] = [b"start", b"stop", b"mend", b"hold", b"go"];

pub(crate) static FLOOR_STATES: [&[u8]; 1] = [b"floor"];

pub(crate) static FLOOR_STEPS: [Triple; 5] = [
    (FLOOR, START, FLOOR),
    (FLOOR, STOP, FLOOR),
    (FLOOR, MEND, FLOOR),
    (FLOOR, HOLD, FLOOR),
    (FLOOR, GO, FLOOR),
];

pub(crate) static WORKER_STATES: [&[u8]; 3] = [b"idle", b"busy", b"worn"];

pub(crate) static WORKER_FINALS: [u8; 2] = [IDLE, WORN];

pub(crate) static WORKER_STEPS: [Triple; 7] = [
    (IDLE, START, BUSY),
    (BUSY, STOP, IDLE),
    (BUSY, STOP, WORN),
    (BUSY, HOLD, BUSY),
    (BUSY, GO, BUSY),
    (WORN, MEND, IDLE),
    (IDLE, MEND, IDLE),
];

pub(crate) static WORKERS: [&[u8]; 10] = [
    b"w1", b"w2", b"w3", b"w4", b"w5", b"w6", b"w7", b"w8", b"w9", b"w10",
];

pub(crate) static SHIFT_STATES: [&[u8]; 4] = [b"rest", b"work", b"tidy", b"pause"];

pub(crate) static SHIFT_FINALS: [u8; 1] = [REST];

pub(crate) static SHIFT_STEPS: [Triple; 5] = [
    (REST, START, WORK),
    (WORK, STOP, TIDY),
    (TIDY, MEND, REST),
    (WORK, HOLD, PAUSE),
    (PAUSE, GO, WORK),
];

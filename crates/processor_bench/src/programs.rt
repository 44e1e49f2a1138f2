// Two loops as instruction words: number in bits 0 to 7, three registers of 8 bits, then 32 bits. Each reads its rounds first, and shows
// one number at its end.

// Adds, multiplies, loads and stores one word: 8 steps a round.
pub const ARITHMETIC: [u64; 17] = [
    0,
    0x00000000_00_00_00_13, // in 0
    0x00000001_00_00_01_01, // set 1 1
    0x0000000d_00_00_03_04, // own 3 16
    0x9e3779b1_00_00_05_01, // set 5 2654435761
    0x00000000_00_03_04_02, // get 4 3 0
    0x00000000_00_04_02_05, // add 2 4 0
    0x00000000_05_02_02_07, // mul 2 2 5
    0x00000000_00_03_02_03, // sto 3 0 2
    0x00000000_01_00_00_06, // sub 0 0 1
    0x00000000_02_04_06_08, // less 6 4 2
    0x00000002_00_00_00_0c, // if0 0 13
    0xfffffff9_00_00_00_0b, // jump 5
    0x00000000_00_00_02_12, // out 2
    0x00000000_00_00_00_0f, // ret
    0,
    12345,
];

// Calls through a slot, pushes and pops: 10 steps a round.
pub const CALLS: [u64; 16] = [
    0,
    0x00000000_00_00_00_13, // in 0
    0x00000001_00_00_01_01, // set 1 1
    0x00000000_00_00_00_10, // push 0
    0x0000000b_00_00_00_0d, // call 15
    0x00000000_00_00_00_11, // pop 0
    0x00000000_01_00_00_06, // sub 0 0 1
    0x00000002_00_00_00_0c, // if0 0 9
    0xfffffffb_00_00_00_0b, // jump 3
    0x00000000_00_00_02_12, // out 2
    0x00000000_00_00_00_0f, // ret
    0x00000000_00_00_02_10, // push 2
    0x00000000_00_00_03_11, // pop 3
    0x00000000_00_02_02_05, // add 2 2 0
    0x00000000_00_00_00_0f, // ret
    11,
];

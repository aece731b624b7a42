// What the C entries hand on, numbers as bit patterns, the refusal first; the mark where nothing is handed on.
// Written by `compare/run replay values_c FILE` (see compare/README.md), never by hand.

// factors by their functional's number, then 4 and 5 with a Love number too few
pub const FACTOR: [u64; 16] = [
    0,
    0x3fd4_d718_0000_0000,
    0,
    0x4017_d140_0000_0000,
    0,
    0x3fc4_d718_0000_0000,
    0,
    0x3fb4_d718_0000_0000,
    0,
    0x3fba_0cde_0000_0000,
    0,
    0x404a_aa5e_353f_7cee,
    0,
    0x3fba_0cde_0000_0000,
    5,
    0x4093_4a00_0000_0000,
];

// entries of c at (1, 0), (1, 2), (2, 0)
pub const COEFFICIENT_C: [u64; 6] = [
    0,
    0x4000_0000_0000_0000,
    4,
    0x4093_4a00_0000_0000,
    4,
    0x4093_4a00_0000_0000,
];

// of s
pub const COEFFICIENT_S: [u64; 6] = [
    0,
    0x4014_0000_0000_0000,
    4,
    0x4093_4a00_0000_0000,
    4,
    0x4093_4a00_0000_0000,
];

// c and s after an entry was set at (1, 0), (1, 2)
pub const SET: [u64; 14] = [
    0,
    0x3ff0_0000_0000_0000,
    0x3fe4_0000_0000_0000,
    0x4008_0000_0000_0000,
    0x4010_0000_0000_0000,
    0xbfd8_0000_0000_0000,
    0x4018_0000_0000_0000,
    4,
    0x3ff0_0000_0000_0000,
    0x4000_0000_0000_0000,
    0x4008_0000_0000_0000,
    0x4010_0000_0000_0000,
    0x4014_0000_0000_0000,
    0x4018_0000_0000_0000,
];

// c and s of zeros
pub const ZEROS: [u64; 9] = [
    0,
    0x0000_0000_0000_0000,
    0x0000_0000_0000_0000,
    0x0000_0000_0000_0000,
    0x4093_4a00_0000_0000,
    0x0000_0000_0000_0000,
    0x0000_0000_0000_0000,
    0x0000_0000_0000_0000,
    0x4093_4a00_0000_0000,
];

// a model file
pub const FILE: [u8; 72] = [
    1, 239, 205, 171, 137, 103, 69, 35, 1, 16, 50, 84, 118, 152, 186, 220, 254, 2, 1, 0, 2, 8, 7,
    6, 5, 4, 3, 2, 1, 136, 151, 166, 181, 196, 211, 226, 241, 2, 1, 0, 0, 0, 0, 0, 0, 0, 2, 0, 0,
    0, 0, 0, 0, 0, 2, 255, 255, 255, 255, 255, 255, 255, 255, 0, 0, 0, 0, 0, 0, 0, 128, 3,
];

// what it holds: c, s, gm, radius, tide, N, dated and the bits of the date
pub const READ: [u64; 16] = [
    0x0000_0000_0000_0000,
    0x0102_0304_0506_0708,
    0x0000_0000_0000_0001,
    0xffff_ffff_ffff_ffff,
    0x5a5a_1234_5a5a_9876,
    0xf1e2_d3c4_b5a6_9788,
    0x0000_0000_0000_0002,
    0x8000_0000_0000_0000,
    0x5a5a_1234_5a5a_9876,
    0x0123_4567_89ab_cdef,
    0xfedc_ba98_7654_3210,
    0x0000_0000_0000_0002,
    0x0000_0000_0000_0001,
    0x0000_0000_0000_0000,
    0x0000_0000_0000_0000,
    0x5a5a_1234_5a5a_9876,
];

// the same with a date
pub const DATED: [u8; 76] = [
    4, 239, 205, 171, 137, 103, 69, 35, 1, 16, 50, 84, 118, 152, 186, 220, 254, 2, 1, 0, 239, 205,
    171, 137, 2, 8, 7, 6, 5, 4, 3, 2, 1, 136, 151, 166, 181, 196, 211, 226, 241, 2, 1, 0, 0, 0, 0,
    0, 0, 0, 2, 0, 0, 0, 0, 0, 0, 0, 2, 255, 255, 255, 255, 255, 255, 255, 255, 0, 0, 0, 0, 0, 0,
    0, 128, 3,
];

// what that holds
pub const READ_DATED: [u64; 16] = [
    0x0000_0000_0000_0000,
    0x0102_0304_0506_0708,
    0x0000_0000_0000_0001,
    0xffff_ffff_ffff_ffff,
    0x5a5a_1234_5a5a_9876,
    0xf1e2_d3c4_b5a6_9788,
    0x0000_0000_0000_0002,
    0x8000_0000_0000_0000,
    0x5a5a_1234_5a5a_9876,
    0x0123_4567_89ab_cdef,
    0xfedc_ba98_7654_3210,
    0x0000_0000_0000_0002,
    0x0000_0000_0000_0001,
    0x0000_0000_0000_0001,
    0x0000_0000_89ab_cdef,
    0x5a5a_1234_5a5a_9876,
];

// with a record of another kind at byte 20
pub const READ_KIND: [u64; 16] = [
    0x0000_0000_0000_0007,
    0x5a5a_1234_5a5a_9876,
    0x5a5a_1234_5a5a_9876,
    0x5a5a_1234_5a5a_9876,
    0x5a5a_1234_5a5a_9876,
    0x5a5a_1234_5a5a_9876,
    0x5a5a_1234_5a5a_9876,
    0x5a5a_1234_5a5a_9876,
    0x5a5a_1234_5a5a_9876,
    0x5a5a_1234_5a5a_9876,
    0x5a5a_1234_5a5a_9876,
    0x5a5a_1234_5a5a_9876,
    0x5a5a_1234_5a5a_9876,
    0x5a5a_1234_5a5a_9876,
    0x5a5a_1234_5a5a_9876,
    0x5a5a_1234_5a5a_9876,
];

// with a byte too many
pub const LONG: [u8; 73] = [
    1, 239, 205, 171, 137, 103, 69, 35, 1, 16, 50, 84, 118, 152, 186, 220, 254, 2, 1, 0, 2, 8, 7,
    6, 5, 4, 3, 2, 1, 136, 151, 166, 181, 196, 211, 226, 241, 2, 1, 0, 0, 0, 0, 0, 0, 0, 2, 0, 0,
    0, 0, 0, 0, 0, 2, 255, 255, 255, 255, 255, 255, 255, 255, 0, 0, 0, 0, 0, 0, 0, 128, 3, 3,
];

// what is read of that
pub const READ_LONG: [u64; 16] = [
    0x0000_0000_0000_0008,
    0x5a5a_1234_5a5a_9876,
    0x5a5a_1234_5a5a_9876,
    0x5a5a_1234_5a5a_9876,
    0x5a5a_1234_5a5a_9876,
    0x5a5a_1234_5a5a_9876,
    0x5a5a_1234_5a5a_9876,
    0x5a5a_1234_5a5a_9876,
    0x5a5a_1234_5a5a_9876,
    0x5a5a_1234_5a5a_9876,
    0x5a5a_1234_5a5a_9876,
    0x5a5a_1234_5a5a_9876,
    0x5a5a_1234_5a5a_9876,
    0x5a5a_1234_5a5a_9876,
    0x5a5a_1234_5a5a_9876,
    0x5a5a_1234_5a5a_9876,
];

// the front of that file
pub const CUT: [u8; 19] = [
    1, 239, 205, 171, 137, 103, 69, 35, 1, 16, 50, 84, 118, 152, 186, 220, 254, 2, 1,
];

// what is told of its lists
pub const LENGTHS_CUT: [u64; 6] = [6, 1234, 1234, 1234, 1234, 1234];

// the front of that file
pub const HEAD: [u8; 20] = [
    1, 239, 205, 171, 137, 103, 69, 35, 1, 16, 50, 84, 118, 152, 186, 220, 254, 2, 1, 0,
];

// what is told of its lists
pub const LENGTHS_HEAD: [u64; 6] = [0, 72, 3, 3, 6, 1234];

// what is told of its lists
pub const LENGTHS_FILE: [u64; 6] = [0, 72, 3, 3, 6, 1234];

// the front of that file
pub const DATED_CUT: [u8; 23] = [
    4, 239, 205, 171, 137, 103, 69, 35, 1, 16, 50, 84, 118, 152, 186, 220, 254, 2, 1, 0, 239, 205,
    171,
];

// what is told of its lists
pub const LENGTHS_DATED_CUT: [u64; 6] = [6, 1234, 1234, 1234, 1234, 1234];

// the front of that file
pub const DATED_HEAD: [u8; 24] = [
    4, 239, 205, 171, 137, 103, 69, 35, 1, 16, 50, 84, 118, 152, 186, 220, 254, 2, 1, 0, 239, 205,
    171, 137,
];

// what is told of its lists
pub const LENGTHS_DATED_HEAD: [u64; 6] = [0, 76, 3, 3, 6, 1234];

// what is told of its lists
pub const LENGTHS_DATED: [u64; 6] = [0, 76, 3, 3, 6, 1234];

// of a file of degree 1
pub const WRITE_LENGTHS: [u64; 5] = [0, 3, 3, 72, 1234];

// of a file of degree 1 with a date
pub const WRITE_LENGTHS_DATED: [u64; 5] = [0, 3, 3, 76, 1234];

// of a file of degree 2700 with a date
pub const WRITE_LENGTHS_LARGE: [u64; 5] = [0, 3649051, 3649051, 62033892, 1234];

// of a file of degree 2701 with a date
pub const WRITE_LENGTHS_BEYOND: [u64; 5] = [1, 1234, 1234, 1234, 1234];

// ten numbers of the field at a point, and the mark behind them
pub const SECOND_PARTIALS: [u64; 11] = [
    0x4013_8cd1_5d37_5aeb,
    0xbff2_acd1_5d37_5aeb,
    0xbff9_ee53_c3d8_8ac7,
    0xbfe5_18ac_488d_753c,
    0x3fdb_933a_0bd3_0861,
    0xc011_ccd1_5d37_5aed,
    0xc00d_01ec_e3c2_8134,
    0x3fd9_ee53_c3d8_8ac7,
    0x3fc5_18ac_488d_753c,
    0x3fdf_a502_6cd4_2fdc,
    0x4093_4a00_0000_0000,
];

// those of two points
pub const SECOND_PARTIALS_ALONG: [u64; 21] = [
    0x4013_8cd1_5d37_5aeb,
    0xbff2_acd1_5d37_5aeb,
    0xbff9_ee53_c3d8_8ac7,
    0xbfe5_18ac_488d_753c,
    0x3fdb_933a_0bd3_0861,
    0xc011_ccd1_5d37_5aed,
    0xc00d_01ec_e3c2_8134,
    0x3fd9_ee53_c3d8_8ac7,
    0x3fc5_18ac_488d_753c,
    0x3fdf_a502_6cd4_2fdc,
    0x3fe5_03d7_0a80_2420,
    0xbfb9_7738_88d2_24bc,
    0x3ff1_940f_e87d_cf9b,
    0xc008_af3c_777f_a641,
    0x3f9b_fcac_7bb5_8126,
    0xbfd2_7378_2ff2_cf00,
    0xbfe1_f3ce_e28b_61a0,
    0xbfcd_9b0d_51ab_7899,
    0x3fe4_c976_49ae_dcd8,
    0xbfec_cc71_3614_eca5,
    0x4093_4a00_0000_0000,
];

// the tensor of the first point
pub const TENSOR_NEU: [u64; 10] = [
    0xbfcb_933a_0bd3_0862,
    0x3c4e_0000_0000_0000,
    0x3fb3_72be_d2e2_6815,
    0x3c4e_0000_0000_0000,
    0xbfcb_933a_0bd3_0860,
    0x3fa3_c721_8404_9de8,
    0x3fb3_72be_d2e2_6815,
    0x3fa3_c721_8404_9de8,
    0x3fdb_933a_0bd3_0861,
    0x4093_4a00_0000_0000,
];

// what is told of a point of degree 3, with 6 places
pub const SECOND_LENGTHS: [u64; 7] = [0, 10, 10, 8, 50, 10, 1234];

// what is told of a point of degree 2700, with 6 places
pub const SECOND_LENGTHS_LARGE: [u64; 7] = [0, 3649051, 3649051, 5402, 18245255, 10, 1234];

// what is told of a point of degree 2701, with 6 places
pub const SECOND_LENGTHS_BEYOND: [u64; 7] = [1, 1234, 1234, 1234, 1234, 1234, 1234];

// what is told of a point of degree 3, with 4 places
pub const SECOND_LENGTHS_SHORT: [u64; 5] = [3, 1234, 1234, 1234, 1234];

// what is told of 2 points of degree 3, with 8 places
pub const ALONG_LENGTHS: [u64; 9] = [0, 10, 10, 2, 4, 16, 50, 20, 1234];

// what is told of 65535 points of degree 2700, with 8 places
pub const ALONG_LENGTHS_LARGE: [u64; 9] = [
    0, 3649051, 3649051, 65535, 131070, 354020070, 18245255, 655350, 1234,
];

// what is told of 2 points of degree 2701, with 8 places
pub const ALONG_LENGTHS_BEYOND: [u64; 9] = [1, 1234, 1234, 1234, 1234, 1234, 1234, 1234, 1234];

// what is told of 65536 points of degree 3, with 8 places
pub const ALONG_LENGTHS_MANY: [u64; 9] = [1, 1234, 1234, 1234, 1234, 1234, 1234, 1234, 1234];

// what is told of 2 points of degree 3, with 6 places
pub const ALONG_LENGTHS_SHORT: [u64; 7] = [3, 1234, 1234, 1234, 1234, 1234, 1234];

// what is told of a tensor, with 2 places
pub const TENSOR_LENGTHS: [u64; 3] = [0, 9, 1234];

// what is told of a tensor, with 0 places
pub const TENSOR_LENGTHS_SHORT: [u64; 1] = [3];

// marks in a and b after `grow` from 1 to 2
pub const GROW: [u64; 15] = [
    0,
    0x4093_4a00_0000_0000,
    0x4093_4a00_0000_0000,
    0x4093_4a00_0000_0000,
    0x3ffe_fbde_b14f_4eda,
    0x4001_e377_9b97_f4a8,
    0x0000_0000_0000_0000,
    0x4093_4a00_0000_0000,
    0x4093_4a00_0000_0000,
    0x4093_4a00_0000_0000,
    0x4093_4a00_0000_0000,
    0x3ff1_e377_9b97_f4a8,
    0x0000_0000_0000_0000,
    0x0000_0000_0000_0000,
    0x4093_4a00_0000_0000,
];

// marks in a and b after `grow` from 2 to 2
pub const GROW_NONE: [u64; 15] = [
    0,
    0x4093_4a00_0000_0000,
    0x4093_4a00_0000_0000,
    0x4093_4a00_0000_0000,
    0x4093_4a00_0000_0000,
    0x4093_4a00_0000_0000,
    0x4093_4a00_0000_0000,
    0x4093_4a00_0000_0000,
    0x4093_4a00_0000_0000,
    0x4093_4a00_0000_0000,
    0x4093_4a00_0000_0000,
    0x4093_4a00_0000_0000,
    0x4093_4a00_0000_0000,
    0x4093_4a00_0000_0000,
    0x4093_4a00_0000_0000,
];

// marks in a and b after `grow` from 1 to 2701
pub const GROW_BEYOND: [u64; 15] = [
    1,
    0x4093_4a00_0000_0000,
    0x4093_4a00_0000_0000,
    0x4093_4a00_0000_0000,
    0x4093_4a00_0000_0000,
    0x4093_4a00_0000_0000,
    0x4093_4a00_0000_0000,
    0x4093_4a00_0000_0000,
    0x4093_4a00_0000_0000,
    0x4093_4a00_0000_0000,
    0x4093_4a00_0000_0000,
    0x4093_4a00_0000_0000,
    0x4093_4a00_0000_0000,
    0x4093_4a00_0000_0000,
    0x4093_4a00_0000_0000,
];

// what is told of a and b of degree 3, in a list of 3
pub const GROW_LENGTHS: [u64; 4] = [0, 10, 10, 1234];

// what is told of a and b of degree 2700, in a list of 3
pub const GROW_LENGTHS_LARGE: [u64; 4] = [0, 3649051, 3649051, 1234];

// what is told of a and b of degree 2701, in a list of 3
pub const GROW_LENGTHS_BEYOND: [u64; 4] = [1, 1234, 1234, 1234];

// what is told of a and b of degree 3, in a list of 1
pub const GROW_LENGTHS_SHORT: [u64; 2] = [3, 1234];

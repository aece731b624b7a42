// The oracle's answers for the crate coefficients, numbers as bit patterns.
// Written by `compare/run replay coefficients FILE` (see compare/README.md), never by hand.

// the Love numbers of both fields
pub const LOVE: [u64; 4] = [
    0x0000_0000_0000_0000,
    0x3f95_8106_24dd_2f1b,
    0xbfd3_645a_1cac_0831,
    0xbfc8_d4fd_f3b6_45a2,
];

// what is set at degree 2 and order 1: c, s
pub const SET: [u64; 2] = [0x3fe4_0000_0000_0000, 0xbfd8_0000_0000_0000];

// c of zeros up to degree 3, and one of the list behind it
pub const ZEROS_C: [u64; 11] = [
    0x0000_0000_0000_0000,
    0x0000_0000_0000_0000,
    0x0000_0000_0000_0000,
    0x0000_0000_0000_0000,
    0x0000_0000_0000_0000,
    0x0000_0000_0000_0000,
    0x0000_0000_0000_0000,
    0x0000_0000_0000_0000,
    0x0000_0000_0000_0000,
    0x0000_0000_0000_0000,
    0x3fe0_0000_0000_0000,
];

// s of zeros, and one of the list behind it
pub const ZEROS_S: [u64; 11] = [
    0x0000_0000_0000_0000,
    0x0000_0000_0000_0000,
    0x0000_0000_0000_0000,
    0x0000_0000_0000_0000,
    0x0000_0000_0000_0000,
    0x0000_0000_0000_0000,
    0x0000_0000_0000_0000,
    0x0000_0000_0000_0000,
    0x0000_0000_0000_0000,
    0x0000_0000_0000_0000,
    0x3fe8_0000_0000_0000,
];

// a field of degree 3, special numbers: gm, radius, then the gm and radius that it is rescaled to
pub const HEAD: [u64; 4] = [
    0x4020_0000_0000_0000,
    0x4000_0000_0000_0000,
    0x4008_0000_0000_0000,
    0xbffc_0000_0000_0000,
];

// its c
pub const C: [u64; 10] = [
    0x8000_0000_0000_0000,
    0x3fd3_3333_3333_3333,
    0x1eb6_7e9c_127b_6e74,
    0xdff1_e667_9047_07f5,
    0x7ff0_0000_0000_0000,
    0x0010_0000_0000_0000,
    0x3fb9_9999_9999_999a,
    0xbfe6_6666_6666_6666,
    0x7ff8_0000_0000_0000,
    0x7fef_ffff_ffff_ffff,
];

// its s
pub const S: [u64; 10] = [
    0x0000_0000_0000_0001,
    0x8000_0000_0000_0000,
    0x9e4c_cb05_3660_8d61,
    0x000f_ffff_ffff_ffff,
    0x3ff0_0000_0000_0000,
    0x8000_0000_0000_0001,
    0x0000_0000_0000_0000,
    0xfff0_0000_0000_0000,
    0x8010_0000_0000_0000,
    0x3fc9_9999_9999_999a,
];

// degree variances
pub const VARIANCES: [u64; 4] = [
    0x0000_0000_0000_0000,
    0x3fb7_0a3d_70a3_d70a,
    0x7ff0_0000_0000_0000,
    0x7ff8_0000_0000_0000,
];

// degree amplitudes of functional 1
pub const AMPLITUDES_GEOID_HEIGHT: [u64; 4] = [
    0x0000_0000_0000_0000,
    0x3fe3_3333_3333_3333,
    0x7ff0_0000_0000_0000,
    0x7ff8_0000_0000_0000,
];

// degree amplitudes of functional 5
pub const AMPLITUDES_WATER_HEIGHT: [u64; 4] = [
    0x0000_0000_0000_0000,
    0x4009_efda_4a1d_fce4,
    0x7ff0_0000_0000_0000,
    0x7ff8_0000_0000_0000,
];

// c rescaled
pub const RESCALED_C: [u64; 10] = [
    0x8000_0000_0000_0000,
    0xbfed_41d4_1d41_d41c,
    0x9ed1_2383_1a45_a97d,
    0xe00f_2c3d_ef11_7815,
    0x7ff0_0000_0000_0000,
    0x002b_dd2b_8994_06f6,
    0xbfd9_79c1_67d7_cbda,
    0x4006_4a89_3adc_d25e,
    0x7ff8_0000_0000_0000,
    0xfff0_0000_0000_0000,
];

// s rescaled
pub const RESCALED_S: [u64; 10] = [
    0x0000_0000_0000_0003,
    0x0000_0000_0000_0000,
    0x1e65_f003_f8ab_1662,
    0x002b_dd2b_8994_06f4,
    0x400b_dd2b_8994_06f6,
    0x8000_0000_0000_0003,
    0x8000_0000_0000_0000,
    0x7ff0_0000_0000_0000,
    0x002f_d831_c1cd_bed0,
    0xbfe9_79c1_67d7_cbda,
];

// c truncated at degree 2
pub const TRUNCATED_C: [u64; 6] = [
    0x8000_0000_0000_0000,
    0x3fd3_3333_3333_3333,
    0x1eb6_7e9c_127b_6e74,
    0xdff1_e667_9047_07f5,
    0x7ff0_0000_0000_0000,
    0x0010_0000_0000_0000,
];

// s truncated at degree 2
pub const TRUNCATED_S: [u64; 6] = [
    0x0000_0000_0000_0001,
    0x8000_0000_0000_0000,
    0x9e4c_cb05_3660_8d61,
    0x000f_ffff_ffff_ffff,
    0x3ff0_0000_0000_0000,
    0x8000_0000_0000_0001,
];

// c of that, truncated at degree 1
pub const TRUNCATED_AGAIN_C: [u64; 3] = [
    0x8000_0000_0000_0000,
    0x3fd3_3333_3333_3333,
    0x1eb6_7e9c_127b_6e74,
];

// s of that
pub const TRUNCATED_AGAIN_S: [u64; 3] = [
    0x0000_0000_0000_0001,
    0x8000_0000_0000_0000,
    0x9e4c_cb05_3660_8d61,
];

// c with one entry set
pub const SET_C: [u64; 10] = [
    0x8000_0000_0000_0000,
    0x3fd3_3333_3333_3333,
    0x1eb6_7e9c_127b_6e74,
    0xdff1_e667_9047_07f5,
    0x3fe4_0000_0000_0000,
    0x0010_0000_0000_0000,
    0x3fb9_9999_9999_999a,
    0xbfe6_6666_6666_6666,
    0x7ff8_0000_0000_0000,
    0x7fef_ffff_ffff_ffff,
];

// s with one entry set
pub const SET_S: [u64; 10] = [
    0x0000_0000_0000_0001,
    0x8000_0000_0000_0000,
    0x9e4c_cb05_3660_8d61,
    0x000f_ffff_ffff_ffff,
    0xbfd8_0000_0000_0000,
    0x8000_0000_0000_0001,
    0x0000_0000_0000_0000,
    0xfff0_0000_0000_0000,
    0x8010_0000_0000_0000,
    0x3fc9_9999_9999_999a,
];

// a field of degree 3, ordinary numbers: gm, radius, then the gm and radius that it is rescaled to
pub const ORDINARY_HEAD: [u64; 4] = [
    0x42f6_a866_5b91_1600,
    0x4158_54a6_1333_3333,
    0x42f6_a866_935b_5000,
    0x4158_54a6_4000_0000,
];

// its c
pub const ORDINARY_C: [u64; 10] = [
    0x3ff0_0000_0000_0000,
    0x3fb9_9999_9999_999a,
    0xbfd3_3333_3333_3333,
    0xbf3f_bb03_bd1d_0325,
    0xbdea_1d07_dbc0_2771,
    0x3ec4_7689_50ff_ca23,
    0x3eb0_0ef8_8cb5_57d6,
    0x3ec1_0840_345b_4df0,
    0x3eae_5c16_405b_2755,
    0x3ea8_3417_7466_e059,
];

// its s
pub const ORDINARY_S: [u64; 10] = [
    0x0000_0000_0000_0000,
    0x0000_0000_0000_0000,
    0x3fe6_6666_6666_6666,
    0x0000_0000_0000_0000,
    0x3e14_9da7_e361_ce4c,
    0xbeb7_7e21_3718_9659,
    0x0000_0000_0000_0000,
    0x3e90_a80b_24e0_dad8,
    0xbea4_c541_62aa_d5e6,
    0x3eb7_baac_42cf_6c94,
];

// degree variances
pub const ORDINARY_VARIANCES: [u64; 4] = [
    0x3ff0_0000_0000_0000,
    0x3fe2_e147_ae14_7ae1,
    0x3e8f_76e1_c8e7_98c5,
    0x3da3_66d2_1d66_aeca,
];

// degree amplitudes of functional 1
pub const ORDINARY_AMPLITUDES_GEOID_HEIGHT: [u64; 4] = [
    0x4158_54a6_1333_3333,
    0x4152_b050_dced_af5d,
    0x40a8_204d_12e0_3209,
    0x4032_f1f5_a140_1ad0,
];

// degree amplitudes of functional 5
pub const ORDINARY_AMPLITUDES_WATER_HEIGHT: [u64; 4] = [
    0x4166_5f3e_14fb_7e91,
    0x4179_3f0b_32f9_1f9d,
    0x40e3_e475_2c30_5bf1,
    0x4072_e94f_419e_2f17,
];

// c rescaled
pub const ORDINARY_RESCALED_C: [u64; 10] = [
    0x3fef_ffff_b134_facd,
    0x3fb9_9999_2b6d_a797,
    0xbfd3_3332_e092_3db1,
    0xbf3f_bb02_fa22_13e3,
    0xbdea_1d07_3b49_748f,
    0x3ec4_7688_d341_9f3c,
    0x3eb0_0ef8_0c76_687c,
    0x3ec1_083f_ac55_9391,
    0x3eae_5c15_4de5_e756,
    0x3ea8_3416_b31b_cd28,
];

// s rescaled
pub const ORDINARY_RESCALED_S: [u64; 10] = [
    0x0000_0000_0000_0000,
    0x0000_0000_0000_0000,
    0x3fe6_6666_05ff_f2a3,
    0x0000_0000_0000_0000,
    0x3e14_9da7_64b3_4112,
    0xbeb7_7e20_a6bc_7e3b,
    0x0000_0000_0000_0000,
    0x3e90_a80a_9fdb_7479,
    0xbea4_c540_bcca_4cfe,
    0x3eb7_baab_854e_053a,
];

// c truncated at degree 2
pub const ORDINARY_TRUNCATED_C: [u64; 6] = [
    0x3ff0_0000_0000_0000,
    0x3fb9_9999_9999_999a,
    0xbfd3_3333_3333_3333,
    0xbf3f_bb03_bd1d_0325,
    0xbdea_1d07_dbc0_2771,
    0x3ec4_7689_50ff_ca23,
];

// s truncated at degree 2
pub const ORDINARY_TRUNCATED_S: [u64; 6] = [
    0x0000_0000_0000_0000,
    0x0000_0000_0000_0000,
    0x3fe6_6666_6666_6666,
    0x0000_0000_0000_0000,
    0x3e14_9da7_e361_ce4c,
    0xbeb7_7e21_3718_9659,
];

// c of that, truncated at degree 1
pub const ORDINARY_TRUNCATED_AGAIN_C: [u64; 3] = [
    0x3ff0_0000_0000_0000,
    0x3fb9_9999_9999_999a,
    0xbfd3_3333_3333_3333,
];

// s of that
pub const ORDINARY_TRUNCATED_AGAIN_S: [u64; 3] = [
    0x0000_0000_0000_0000,
    0x0000_0000_0000_0000,
    0x3fe6_6666_6666_6666,
];

// c with one entry set
pub const ORDINARY_SET_C: [u64; 10] = [
    0x3ff0_0000_0000_0000,
    0x3fb9_9999_9999_999a,
    0xbfd3_3333_3333_3333,
    0xbf3f_bb03_bd1d_0325,
    0x3fe4_0000_0000_0000,
    0x3ec4_7689_50ff_ca23,
    0x3eb0_0ef8_8cb5_57d6,
    0x3ec1_0840_345b_4df0,
    0x3eae_5c16_405b_2755,
    0x3ea8_3417_7466_e059,
];

// s with one entry set
pub const ORDINARY_SET_S: [u64; 10] = [
    0x0000_0000_0000_0000,
    0x0000_0000_0000_0000,
    0x3fe6_6666_6666_6666,
    0x0000_0000_0000_0000,
    0xbfd8_0000_0000_0000,
    0xbeb7_7e21_3718_9659,
    0x0000_0000_0000_0000,
    0x3e90_a80b_24e0_dad8,
    0xbea4_c541_62aa_d5e6,
    0x3eb7_baac_42cf_6c94,
];

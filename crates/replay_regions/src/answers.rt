// The oracle's answers for regions, numbers as bit patterns.
// Written by `compare/run replay regions FILE` (see compare/README.md), never by hand.

// a region of degree 0: its weights
pub const OF_0_WEIGHTS: [u64; 3] = [
    0x3fe9_b2fc_f8f0_916c,
    0x7ff8_0000_0000_0000,
    0x3fe6_99d5_08e6_aaae,
];

// the latitudes, sine and cosine
pub const OF_0_LATITUDES: [u64; 6] = [
    0x3fe4_9d6e_6946_19b8,
    0x3fe8_7996_529f_9d93,
    0x7ff0_0000_0000_0000,
    0x7ff8_0000_0000_0000,
    0xbfec_84c5_4c2d_6338,
    0x3fdd_07b8_06c7_6111,
];

// the marks
pub const OF_0_MARKS: [u8; 3] = [1, 0, 255];

// the integrals s
pub const OF_0_S: [u64; 3] = [
    0xbfd0_7c53_0f76_ae4e,
    0x7ff8_0000_0000_0000,
    0xbfad_bf28_0b82_b6ef,
];

// the integrals c
pub const OF_0_C: [u64; 3] = [
    0xbfc3_96c1_9e70_36c7,
    0x7ff8_0000_0000_0000,
    0xbfd3_c3e7_4117_a2c9,
];

// the front of the matrix
pub const OF_0_MATRIX: [u64; 1] = [0xbf94_3371_48d1_998b];

// the concentrations
pub const OF_0_CONCENTRATIONS: [u64; 1] = [0xbf94_3371_48d1_998b];

// the front of the functions' c
pub const OF_0_COSINES: [u64; 1] = [0x3ff0_0000_0000_0000];

// the front of their s
pub const OF_0_SINES: [u64; 1] = [0x0000_0000_0000_0000];

// how the solver ended: 1 or 0, and its count
pub const OF_0_ENDED: [u64; 2] = [0x0000_0000_0000_0001, 0x0000_0000_0000_0000];

// a region of degree 1: its weights
pub const OF_1_WEIGHTS: [u64; 3] = [
    0x3fe9_b2fc_f8f0_916c,
    0x7ff8_0000_0000_0000,
    0x3fe6_99d5_08e6_aaae,
];

// the latitudes, sine and cosine
pub const OF_1_LATITUDES: [u64; 6] = [
    0x3fe4_9d6e_6946_19b8,
    0x3fe8_7996_529f_9d93,
    0x7ff0_0000_0000_0000,
    0x7ff8_0000_0000_0000,
    0xbfec_84c5_4c2d_6338,
    0x3fdd_07b8_06c7_6111,
];

// the marks
pub const OF_1_MARKS: [u8; 3] = [1, 0, 255];

// the integrals s
pub const OF_1_S: [u64; 9] = [
    0xbfd0_7c53_0f76_ae4e,
    0x3fcf_1a49_2c85_da08,
    0x3fc8_f4db_03b9_1927,
    0x7ff8_0000_0000_0000,
    0x7ff8_0000_0000_0000,
    0x7ff8_0000_0000_0000,
    0xbfad_bf28_0b82_b6ef,
    0x3fd5_4f8f_28fa_200b,
    0xbf9c_5f16_7689_d338,
];

// the integrals c
pub const OF_1_C: [u64; 9] = [
    0xbfc3_96c1_9e70_36c7,
    0xbfd1_8838_9cf7_7135,
    0x3fcc_9fe2_fc11_47d4,
    0x7ff8_0000_0000_0000,
    0x7ff8_0000_0000_0000,
    0x7ff8_0000_0000_0000,
    0xbfd3_c3e7_4117_a2c9,
    0xbfb5_a838_1184_4fa4,
    0x3fd5_2913_0ae1_1158,
];

// the front of the matrix
pub const OF_1_MATRIX: [u64; 16] = [
    0xbf94_3371_48d1_998b,
    0xbf8b_4bcf_ea31_3b2d,
    0x3fa2_0fa0_1be5_8338,
    0xbf9b_9302_9086_a545,
    0xbf8b_4bcf_ea31_3b2d,
    0xbf9c_f493_94bd_4ed5,
    0x3f30_f0a4_2fd0_521e,
    0xbf94_984d_1ce1_b9de,
    0x3fa2_0fa0_1be5_8338,
    0x3f30_f0a4_2fd0_521e,
    0xbf74_7a9e_9303_56b0,
    0x3f71_c36d_7c52_b8f5,
    0xbf9b_9302_9086_a545,
    0xbf94_984d_1ce1_b9de,
    0x3f71_c36d_7c52_b8f5,
    0xbf9a_8718_a0f6_a81f,
];

// the concentrations
pub const OF_1_CONCENTRATIONS: [u64; 4] = [
    0x3f9c_8d68_0189_e44f,
    0xbf74_83c1_65bc_f5c3,
    0xbf9c_ba07_8a53_5528,
    0xbfb2_e00d_5043_6df8,
];

// the front of the functions' c
pub const OF_1_COSINES: [u64; 12] = [
    0x3fe5_9440_53f3_ffc0,
    0xbfb0_82d7_2b8f_32ad,
    0x3fe6_0b5d_87bf_b3b2,
    0xbfb6_483c_9048_d871,
    0xbfe2_d4a7_4deb_04ea,
    0x3fd3_b7d4_5ebb_09e6,
    0x3fd9_8a64_f033_7112,
    0xbfe5_d16a_81ae_6226,
    0xbfe1_b4e3_36e4_95b1,
    0x3fe3_af63_d0fa_ad86,
    0x3fdb_810f_6781_dfd9,
    0xbfd6_9139_0ec1_0ac2,
];

// the front of their s
pub const OF_1_SINES: [u64; 12] = [
    0x0000_0000_0000_0000,
    0x0000_0000_0000_0000,
    0xbfd0_8201_5b9e_5d86,
    0x0000_0000_0000_0000,
    0x0000_0000_0000_0000,
    0x3fe7_c212_92a3_c8f1,
    0x0000_0000_0000_0000,
    0x0000_0000_0000_0000,
    0xbfd0_e566_7e27_5ee5,
    0x0000_0000_0000_0000,
    0x0000_0000_0000_0000,
    0x3fe1_e3de_9bae_8abb,
];

// how the solver ended: 1 or 0, and its count
pub const OF_1_ENDED: [u64; 2] = [0x0000_0000_0000_0001, 0x0000_0000_0000_0005];

// a region of degree 2: its weights
pub const OF_2_WEIGHTS: [u64; 3] = [
    0x3fe9_b2fc_f8f0_916c,
    0x7ff8_0000_0000_0000,
    0x3fe6_99d5_08e6_aaae,
];

// the latitudes, sine and cosine
pub const OF_2_LATITUDES: [u64; 6] = [
    0x3fe4_9d6e_6946_19b8,
    0x3fe8_7996_529f_9d93,
    0x7ff0_0000_0000_0000,
    0x7ff8_0000_0000_0000,
    0xbfec_84c5_4c2d_6338,
    0x3fdd_07b8_06c7_6111,
];

// the marks
pub const OF_2_MARKS: [u8; 3] = [1, 0, 255];

// the integrals s
pub const OF_2_S: [u64; 15] = [
    0xbfd0_7c53_0f76_ae4e,
    0x3fcf_1a49_2c85_da08,
    0x3fc8_f4db_03b9_1927,
    0xbfd2_c44f_d0a0_2cb9,
    0xbfbe_91a3_5939_bf4d,
    0x7ff8_0000_0000_0000,
    0x7ff8_0000_0000_0000,
    0x7ff8_0000_0000_0000,
    0x7ff8_0000_0000_0000,
    0x7ff8_0000_0000_0000,
    0xbfad_bf28_0b82_b6ef,
    0x3fd5_4f8f_28fa_200b,
    0xbf9c_5f16_7689_d338,
    0xbfd4_da95_46bb_a1bc,
    0x3fbc_968c_5b22_e233,
];

// the integrals c
pub const OF_2_C: [u64; 15] = [
    0xbfc3_96c1_9e70_36c7,
    0xbfd1_8838_9cf7_7135,
    0x3fcc_9fe2_fc11_47d4,
    0x3fcb_b020_681c_eb93,
    0xbfd1_e135_9c3b_d862,
    0x7ff8_0000_0000_0000,
    0x7ff8_0000_0000_0000,
    0x7ff8_0000_0000_0000,
    0x7ff8_0000_0000_0000,
    0x7ff8_0000_0000_0000,
    0xbfd3_c3e7_4117_a2c9,
    0xbfb5_a838_1184_4fa4,
    0x3fd5_2913_0ae1_1158,
    0xbf43_bb38_71a4_8861,
    0xbfd5_2688_3875_d3e6,
];

// the front of the matrix
pub const OF_2_MATRIX: [u64; 81] = [
    0xbf94_3371_48d1_998b,
    0xbf8b_4bcf_ea31_3b2d,
    0x3fa2_0fa0_1be5_8338,
    0xbf9b_9302_9086_a545,
    0xbf83_9353_f1a1_8c6c,
    0x3f35_de94_754d_e39c,
    0xbf9a_9682_f8d8_c891,
    0x3f8b_a338_27cf_1647,
    0x3f98_2906_896e_1c54,
    0xbf8b_4bcf_ea31_3b2d,
    0xbf9c_f493_94bd_4ed5,
    0x3f30_f0a4_2fd0_521e,
    0xbf94_984d_1ce1_b9de,
    0x3f66_9bf0_7f8a_4557,
    0x3fb4_0b32_0866_a84d,
    0xbfa8_f84e_48c2_7f9c,
    0x3f91_1bdf_4eab_45ff,
    0x3f7b_2e91_dab7_37f7,
    0x3fa2_0fa0_1be5_8338,
    0x3f30_f0a4_2fd0_521e,
    0xbf74_7a9e_9303_56b0,
    0x3f71_c36d_7c52_b8f5,
    0x3f9d_0c3d_dd63_ca30,
    0xbf61_2398_cf28_62cb,
    0x3f74_454c_599b_ef6b,
    0xbf63_38f2_36ef_b30f,
    0xbf6c_c712_c1a4_a70b,
    0xbf9b_9302_9086_a545,
    0xbf94_984d_1ce1_b9de,
    0x3f71_c36d_7c52_b8f5,
    0xbf9a_8718_a0f6_a81f,
    0xbf88_d72b_ab70_c0a8,
    0x3f81_0beb_ade9_4044,
    0xbfa2_2e18_db9d_cc2c,
    0x3f98_d486_2f97_3111,
    0x3fa0_21f9_d000_2dd3,
    0xbf83_9353_f1a1_8c6c,
    0x3f66_9bf0_7f8a_4557,
    0x3f9d_0c3d_dd63_ca30,
    0xbf88_d72b_ab70_c0a8,
    0xbf82_838a_8fb5_83a8,
    0xbfa3_091b_a8d6_c00d,
    0x3f63_4b7e_9c2e_0cdf,
    0x3f67_d29f_6401_17c5,
    0x3f90_4359_5791_8daa,
    0x3f35_de94_754d_e39c,
    0x3fb4_0b32_0866_a84d,
    0xbf61_2398_cf28_62cb,
    0x3f81_0beb_ade9_4044,
    0xbfa3_091b_a8d6_c00d,
    0xbf8b_0714_cad0_17aa,
    0x3f83_e611_0be8_46c4,
    0xbf6d_74e7_c8df_a858,
    0xbf64_5ff8_9b72_b35b,
    0xbf9a_9682_f8d8_c891,
    0xbfa8_f84e_48c2_7f9c,
    0x3f74_454c_599b_ef6b,
    0xbfa2_2e18_db9d_cc2c,
    0x3f63_4b7e_9c2e_0cdf,
    0x3f83_e611_0be8_46c4,
    0xbfac_0910_ab5b_e52f,
    0x3fa0_95d3_2702_b404,
    0x3f9a_1a86_eb4c_af9a,
    0x3f8b_a338_27cf_1647,
    0x3f91_1bdf_4eab_45ff,
    0xbf63_38f2_36ef_b30f,
    0x3f98_d486_2f97_3111,
    0x3f67_d29f_6401_17c5,
    0xbf6d_74e7_c8df_a858,
    0x3fa0_95d3_2702_b404,
    0xbf8f_2bc4_6725_d47a,
    0xbf95_13d1_d13a_aa18,
    0x3f98_2906_896e_1c54,
    0x3f7b_2e91_dab7_37f7,
    0xbf6c_c712_c1a4_a70b,
    0x3fa0_21f9_d000_2dd3,
    0x3f90_4359_5791_8daa,
    0xbf64_5ff8_9b72_b35b,
    0x3f9a_1a86_eb4c_af9a,
    0xbf95_13d1_d13a_aa18,
    0xbf7a_4f8c_d229_f5d7,
];

// the concentrations
pub const OF_2_CONCENTRATIONS: [u64; 9] = [
    0x3fb3_25cb_5350_6d2d,
    0x3fa1_2e59_80df_56c0,
    0x3f91_a7f8_cfe0_aca1,
    0x3f74_bebe_2c0a_5a96,
    0xbc63_eb6f_44a3_9804,
    0xbf7e_f2d6_7a2e_b01b,
    0xbfa1_08d6_bb35_2fa9,
    0xbfb8_8462_aa0a_ff58,
    0xbfc5_f752_cf84_005b,
];

// the front of the functions' c
pub const OF_2_COSINES: [u64; 54] = [
    0xbfb9_27fe_5ec7_d8cf,
    0x3fe2_a720_baa6_2cbb,
    0xbfc8_8909_c44c_e127,
    0xbfd6_ec28_a93a_48d7,
    0x3fe5_14f3_4b2a_6a0f,
    0x3f9d_438d_1897_b89e,
    0x3fe1_22b6_fe38_e3f4,
    0x3fd2_d86b_35fe_1283,
    0x3fe4_9b5e_3aff_7649,
    0x3fd2_aa79_c5cc_137f,
    0x3fc5_fa49_fab4_6c83,
    0xbfa6_15e2_22e7_79db,
    0xbfaa_c762_703c_80d4,
    0xbf9d_e64a_951c_ed5b,
    0xbfc0_9ad5_dd11_e81a,
    0xbf9c_f4aa_98e2_370c,
    0x3fb1_789b_f299_f7ce,
    0xbfc1_17f1_1fd8_bd19,
    0x3f90_9400_a416_3022,
    0xbf65_6707_9dcd_e65e,
    0x3fc6_d388_0b77_f80e,
    0x3f8d_5695_3ffc_a02f,
    0x3fb2_ad68_4568_c7e6,
    0x3fec_18db_ffae_b033,
    0xbfe2_d817_8de9_55ff,
    0x3fd6_519b_cfca_a485,
    0x3c99_9c1e_da91_7af8,
    0x3fe7_54e9_4ac8_caaa,
    0xbca9_fc14_a2cf_c511,
    0xbbf4_0bf7_f736_cb2f,
    0x3f9e_d859_5991_d5bd,
    0x3f87_cdc5_ec27_6bc0,
    0xbfc9_2113_6775_10f9,
    0x3f93_3845_f1e6_8995,
    0x3fce_31ad_df6d_ba55,
    0x3fae_20d9_778d_075f,
    0xbfd9_db6e_159c_4e46,
    0xbfce_a876_48b2_c5b6,
    0x3fe3_7d20_353b_9d38,
    0xbfcb_1aa7_2811_c734,
    0x3fd2_f0b7_15d8_a86f,
    0xbfd4_9ec2_7847_a60f,
    0x3fd4_9d6c_63a3_1a74,
    0xbfda_5326_b11c_c575,
    0xbfd2_1171_3112_11d7,
    0x3fdd_3daa_3340_75b5,
    0x3fe1_5f6b_ab50_7069,
    0xbfc0_c882_f8f3_5651,
    0x3fd2_c2c3_c327_a4ef,
    0x3fde_507a_872d_7abb,
    0xbfba_94d5_6fca_b283,
    0x3f84_e725_452f_d31d,
    0xbfd3_0b59_5399_6b94,
    0xbfd2_8ee0_3933_493a,
];

// the front of their s
pub const OF_2_SINES: [u64; 54] = [
    0x0000_0000_0000_0000,
    0x0000_0000_0000_0000,
    0x3fa2_e7ef_245c_2080,
    0x0000_0000_0000_0000,
    0xbfc8_4c63_ee51_731a,
    0xbfbd_86cf_47d6_683c,
    0x0000_0000_0000_0000,
    0x0000_0000_0000_0000,
    0xbfc1_1f2b_9e13_1288,
    0x0000_0000_0000_0000,
    0xbfc3_73ac_c94e_35c7,
    0x3fcd_df33_119e_558d,
    0x0000_0000_0000_0000,
    0x0000_0000_0000_0000,
    0x3fe2_7efd_ba1a_7541,
    0x0000_0000_0000_0000,
    0xbf9c_b279_3de2_d6b4,
    0x3fe9_39c6_198b_19b7,
    0x0000_0000_0000_0000,
    0x0000_0000_0000_0000,
    0x3fd5_b985_5aa7_545b,
    0x0000_0000_0000_0000,
    0x3fd1_2817_f5af_2450,
    0xbfb0_eba3_b260_7b6f,
    0x0000_0000_0000_0000,
    0x0000_0000_0000_0000,
    0x3cb9_0de3_f212_f648,
    0x0000_0000_0000_0000,
    0xbcc0_9e21_23b8_e303,
    0xbcb7_004a_a5ab_30cd,
    0x0000_0000_0000_0000,
    0x0000_0000_0000_0000,
    0xbfe1_ae28_c0c7_b48a,
    0x0000_0000_0000_0000,
    0x3fe5_5425_5821_745f,
    0x3fd8_e7d4_b672_00db,
    0x0000_0000_0000_0000,
    0x0000_0000_0000_0000,
    0x3fc5_e5c5_a367_b64d,
    0x0000_0000_0000_0000,
    0x3fd6_9425_912d_4a04,
    0xbfc1_6d3e_42b3_df9e,
    0x0000_0000_0000_0000,
    0x0000_0000_0000_0000,
    0x3fcd_d35e_dc9b_0d56,
    0x0000_0000_0000_0000,
    0x3faf_c2fb_dc34_b49c,
    0xbfd0_c134_2f66_a482,
    0x0000_0000_0000_0000,
    0x0000_0000_0000_0000,
    0x3fd8_2b14_74d8_3d88,
    0x0000_0000_0000_0000,
    0x3fe1_665e_cd65_f1b0,
    0xbfd0_ae67_12a4_ce53,
];

// how the solver ended: 1 or 0, and its count
pub const OF_2_ENDED: [u64; 2] = [0x0000_0000_0000_0001, 0x0000_0000_0000_0005];

// a region of degree 1: its weights
pub const STRANGE_WEIGHTS: [u64; 3] = [
    0x01a5_6e1f_c2f8_f359,
    0x7ff8_0000_0000_0000,
    0x8000_0000_0000_0000,
];

// the latitudes, sine and cosine
pub const STRANGE_LATITUDES: [u64; 6] = [
    0x3fe4_9d6e_6946_19b8,
    0x3fe8_7996_529f_9d93,
    0x7ff0_0000_0000_0000,
    0x7ff8_0000_0000_0000,
    0xbfec_84c5_4c2d_6338,
    0x3fdd_07b8_06c7_6111,
];

// the marks
pub const STRANGE_MARKS: [u8; 3] = [1, 0, 255];

// the integrals s
pub const STRANGE_S: [u64; 9] = [
    0x7fea_b36d_48e1_acf0,
    0x7fe1_ccf3_85eb_c8a0,
    0xffe5_5c57_6d81_5726,
    0x7ff8_0000_0000_0000,
    0x7ff8_0000_0000_0000,
    0x7ff8_0000_0000_0000,
    0x0000_0000_0000_0003,
    0x0000_0000_0000_0001,
    0x8000_0000_0000_0005,
];

// the integrals c
pub const STRANGE_C: [u64; 9] = [
    0x8000_0000_0000_0000,
    0x0000_0000_0000_0000,
    0x8000_0000_0000_0000,
    0x7ff8_0000_0000_0000,
    0x7ff8_0000_0000_0000,
    0x7ff8_0000_0000_0000,
    0x0000_0000_0000_0000,
    0x0000_0000_0000_07e8,
    0x8000_1268_8b70_e62b,
];

// the front of the matrix
pub const STRANGE_MATRIX: [u64; 16] = [
    0x7ff0_0000_0000_0000,
    0x7ff0_0000_0000_0000,
    0x7ff0_0000_0000_0000,
    0x0000_0000_0000_0000,
    0x7ff0_0000_0000_0000,
    0x7ff0_0000_0000_0000,
    0x7ff0_0000_0000_0000,
    0x0000_0000_0000_0000,
    0x7ff0_0000_0000_0000,
    0x7ff0_0000_0000_0000,
    0x413f_f6e2_1ba8_4522,
    0x0000_0000_0000_0000,
    0x0000_0000_0000_0000,
    0x0000_0000_0000_0000,
    0x0000_0000_0000_0000,
    0x7ff0_0000_0000_0000,
];

// the concentrations
pub const STRANGE_CONCENTRATIONS: [u64; 4] = [
    0x7ff0_0000_0000_0000,
    0x7ff0_0000_0000_0000,
    0x7ff0_0000_0000_0000,
    0x413f_f6e2_1ba8_4522,
];

// the front of the functions' c
pub const STRANGE_COSINES: [u64; 12] = [
    0x3ff0_0000_0000_0000,
    0x0000_0000_0000_0000,
    0x0000_0000_0000_0000,
    0x0000_0000_0000_0000,
    0x3ff0_0000_0000_0000,
    0x0000_0000_0000_0000,
    0x0000_0000_0000_0000,
    0x0000_0000_0000_0000,
    0x0000_0000_0000_0000,
    0x0000_0000_0000_0000,
    0x0000_0000_0000_0000,
    0x3ff0_0000_0000_0000,
];

// the front of their s
pub const STRANGE_SINES: [u64; 12] = [
    0x0000_0000_0000_0000,
    0x0000_0000_0000_0000,
    0x0000_0000_0000_0000,
    0x0000_0000_0000_0000,
    0x0000_0000_0000_0000,
    0x0000_0000_0000_0000,
    0x0000_0000_0000_0000,
    0x0000_0000_0000_0000,
    0x3ff0_0000_0000_0000,
    0x0000_0000_0000_0000,
    0x0000_0000_0000_0000,
    0x0000_0000_0000_0000,
];

// how the solver ended: 1 or 0, and its count
pub const STRANGE_ENDED: [u64; 2] = [0x0000_0000_0000_0001, 0x0000_0000_0000_0000];

// a region of degree 1: its weights
pub const LARGE_WEIGHTS: [u64; 3] = [
    0x3ff8_0000_0000_0000,
    0x7ff8_0000_0000_0000,
    0x3fe8_0000_0000_0000,
];

// the latitudes, sine and cosine
pub const LARGE_LATITUDES: [u64; 6] = [
    0x3fe4_9d6e_6946_19b8,
    0x3fe8_7996_529f_9d93,
    0x7ff0_0000_0000_0000,
    0x7ff8_0000_0000_0000,
    0xbfec_84c5_4c2d_6338,
    0x3fdd_07b8_06c7_6111,
];

// the marks
pub const LARGE_MARKS: [u8; 3] = [1, 0, 255];

// the integrals s
pub const LARGE_S: [u64; 9] = [
    0x7fdc_7b1f_3cac_7433,
    0x7fe1_ccf3_85eb_c8a0,
    0x7fe5_5c57_6d81_5726,
    0x7ff8_0000_0000_0000,
    0x7ff8_0000_0000_0000,
    0x7ff8_0000_0000_0000,
    0x0000_0000_0000_0003,
    0x0000_0000_0000_0001,
    0x8000_0000_0000_0005,
];

// the integrals c
pub const LARGE_C: [u64; 9] = [
    0x8000_0000_0000_0000,
    0x0000_0000_0000_0000,
    0x8000_0000_0000_0000,
    0x7ff8_0000_0000_0000,
    0x7ff8_0000_0000_0000,
    0x7ff8_0000_0000_0000,
    0x0000_0000_0000_0000,
    0x0000_0000_0000_07e8,
    0x8000_1268_8b70_e62b,
];

// the front of the matrix
pub const LARGE_MATRIX: [u64; 16] = [
    0x7fab_3282_3794_9cbe,
    0x7fae_58e4_0f1a_4cef,
    0x7ff0_0000_0000_0000,
    0x0000_0000_0000_005f,
    0x7fae_58e4_0f1a_4cef,
    0x7fb0_ee55_4db7_4037,
    0x7ff0_0000_0000_0000,
    0x8000_0000_0000_0093,
    0x7ff0_0000_0000_0000,
    0x7ff0_0000_0000_0000,
    0x7ff0_0000_0000_0000,
    0x8000_0056_cdac_858d,
    0x0000_0000_0000_005f,
    0x8000_0000_0000_0093,
    0x8000_0056_cdac_858d,
    0xff97_dd6e_05a7_aae5,
];

// the concentrations
pub const LARGE_CONCENTRATIONS: [u64; 4] = [
    0x7ff0_0000_0000_0000,
    0x7fb0_ee55_4db7_4037,
    0x7fab_3282_3794_9cbe,
    0xff97_dd6e_05a7_aae5,
];

// the front of the functions' c
pub const LARGE_COSINES: [u64; 12] = [
    0x0000_0000_0000_0000,
    0x0000_0000_0000_0000,
    0x3ff0_0000_0000_0000,
    0x0000_0000_0000_0000,
    0x3ff0_0000_0000_0000,
    0x0000_0000_0000_0000,
    0x3ff0_0000_0000_0000,
    0x0000_0000_0000_0000,
    0x0000_0000_0000_0000,
    0x0000_0000_0000_0000,
    0x0000_0000_0000_0000,
    0x0000_0000_0000_0000,
];

// the front of their s
pub const LARGE_SINES: [u64; 12] = [
    0x0000_0000_0000_0000,
    0x0000_0000_0000_0000,
    0x0000_0000_0000_0000,
    0x0000_0000_0000_0000,
    0x0000_0000_0000_0000,
    0x0000_0000_0000_0000,
    0x0000_0000_0000_0000,
    0x0000_0000_0000_0000,
    0x0000_0000_0000_0000,
    0x0000_0000_0000_0000,
    0x0000_0000_0000_0000,
    0x3ff0_0000_0000_0000,
];

// how the solver ended: 1 or 0, and its count
pub const LARGE_ENDED: [u64; 2] = [0x0000_0000_0000_0001, 0x0000_0000_0000_0000];

// a region of degree 1: its weights
pub const NONE_WEIGHTS: [u64; 1] = [0x3fe6_6666_6666_6666];

// the latitudes, sine and cosine
pub const NONE_LATITUDES: [u64; 2] = [0x3fd8_ec3a_e92b_676b, 0x3fed_7954_e7db_a2f8];

// the marks
pub const NONE_MARKS: [u8; 1] = [1];

// the integrals s
pub const NONE_S: [u64; 3] = [
    0x3ff0_0000_0000_0000,
    0x0000_0000_0000_0000,
    0x7ff8_0000_0000_0000,
];

// the integrals c
pub const NONE_C: [u64; 3] = [
    0x0000_0000_0000_0000,
    0x0000_0000_0000_0000,
    0x0000_0000_0000_0000,
];

// the front of the matrix
pub const NONE_MATRIX: [u64; 16] = [
    0x3fac_8543_cce7_4bea,
    0x3fa3_3ca5_b66b_14c1,
    0x0000_0000_0000_0000,
    0x0000_0000_0000_0000,
    0x3fa3_3ca5_b66b_14c1,
    0x3f99_f346_1fca_af15,
    0x0000_0000_0000_0000,
    0x0000_0000_0000_0000,
    0x0000_0000_0000_0000,
    0x0000_0000_0000_0000,
    0x7ff8_0000_0000_0000,
    0x0000_0000_0000_0000,
    0x0000_0000_0000_0000,
    0x0000_0000_0000_0000,
    0x0000_0000_0000_0000,
    0x7ff8_0000_0000_0000,
];

// the concentrations
pub const NONE_CONCENTRATIONS: [u64; 4] = [
    0x7ff8_0000_0000_0000,
    0x7ff8_0000_0000_0000,
    0x3fb4_bf73_6e66_51bb,
    0x3c4a_8786_d49d_4431,
];

// the front of the functions' c
pub const NONE_COSINES: [u64; 12] = [
    0x0000_0000_0000_0000,
    0x0000_0000_0000_0000,
    0x3ff0_0000_0000_0000,
    0x0000_0000_0000_0000,
    0x0000_0000_0000_0000,
    0x0000_0000_0000_0000,
    0x3fea_8786_d49d_4431,
    0x3fe1_e4d5_33bc_ddcd,
    0x0000_0000_0000_0000,
    0xbfe1_e4d5_33bc_ddcd,
    0x3fea_8786_d49d_4431,
    0x0000_0000_0000_0000,
];

// the front of their s
pub const NONE_SINES: [u64; 12] = [
    0x0000_0000_0000_0000,
    0x0000_0000_0000_0000,
    0x0000_0000_0000_0000,
    0x0000_0000_0000_0000,
    0x0000_0000_0000_0000,
    0x3ff0_0000_0000_0000,
    0x0000_0000_0000_0000,
    0x0000_0000_0000_0000,
    0x0000_0000_0000_0000,
    0x0000_0000_0000_0000,
    0x0000_0000_0000_0000,
    0x0000_0000_0000_0000,
];

// how the solver ended: 1 or 0, and its count
pub const NONE_ENDED: [u64; 2] = [0x0000_0000_0000_0000, 0x0000_0000_0000_0064];

// a region of degree 5: its weights
pub const FAINT_WEIGHTS: [u64; 1] = [0x0000_1268_8b70_e62b];

// the latitudes, sine and cosine
pub const FAINT_LATITUDES: [u64; 2] = [0x3fe0_0000_0000_0000, 0x3fec_0000_0000_0000];

// the marks
pub const FAINT_MARKS: [u8; 1] = [1];

// the integrals s
pub const FAINT_S: [u64; 11] = [
    0x3fe0_0000_0000_0000,
    0x3fe0_0000_0000_0000,
    0x3fe0_0000_0000_0000,
    0x3fe0_0000_0000_0000,
    0x3fe0_0000_0000_0000,
    0x3fe0_0000_0000_0000,
    0x3fe0_0000_0000_0000,
    0x3fe0_0000_0000_0000,
    0x3fe0_0000_0000_0000,
    0x3fe0_0000_0000_0000,
    0x3fe0_0000_0000_0000,
];

// the integrals c
pub const FAINT_C: [u64; 11] = [
    0x3fe0_0000_0000_0000,
    0x3fe0_0000_0000_0000,
    0x3fe0_0000_0000_0000,
    0x3fe0_0000_0000_0000,
    0x3fe0_0000_0000_0000,
    0x3fe0_0000_0000_0000,
    0x3fe0_0000_0000_0000,
    0x3fe0_0000_0000_0000,
    0x3fe0_0000_0000_0000,
    0x3fe0_0000_0000_0000,
    0x3fe0_0000_0000_0000,
];

// the front of the matrix
pub const FAINT_MATRIX: [u64; 36] = [
    0x0000_00bb_8196_0806,
    0x0000_00a2_6297_cb8f,
    0x0000_011c_2c89_a43b,
    0x0000_011c_2c89_a43b,
    0x8000_0034_68d9_e714,
    0x0000_013d_b756_7603,
    0x0000_013d_b756_7603,
    0x0000_0116_006b_a743,
    0x0000_0116_006b_a743,
    0x8000_00d9_0a9d_0940,
    0x0000_0042_7481_a734,
    0x0000_0042_7481_a734,
    0x0000_016f_c2f8_902b,
    0x0000_016f_c2f8_902b,
    0x0000_0106_bdd8_4b57,
    0x0000_0106_bdd8_4b57,
    0x8000_00a2_9a60_1af5,
    0x8000_00f3_3366_0a8f,
    0x8000_00f3_3366_0a8f,
    0x0000_00b4_913e_be23,
    0x0000_00b4_913e_be23,
    0x0000_018a_1cc4_7102,
    0x0000_018a_1cc4_7102,
    0x0000_00f3_d837_0842,
    0x0000_00f3_d837_0842,
    0x0000_0037_df6a_c1c8,
    0x8000_0138_d4a4_9baa,
    0x8000_0138_d4a4_9baa,
    0x8000_0098_7745_b073,
    0x8000_0098_7745_b073,
    0x0000_0110_5138_2ddb,
    0x0000_0110_5138_2ddb,
    0x0000_0194_5ed9_7522,
    0x0000_0194_5ed9_7522,
    0x0000_00df_c72f_74c1,
    0x0000_00df_c72f_74c1,
];

// the concentrations
pub const FAINT_CONCENTRATIONS: [u64; 36] = [
    0x0000_0583_0348_4d8e,
    0x0000_053c_54cf_5e17,
    0x0000_048f_1758_43ff,
    0x0000_036d_d38a_75ae,
    0x0000_0354_197b_ddc0,
    0x0000_0352_4cea_4860,
    0x0000_02e1_f05e_1ac7,
    0x0000_0290_2644_9c41,
    0x0000_027f_ea44_c809,
    0x0000_022b_c004_e8a4,
    0x0000_0203_f4a1_5aff,
    0x0000_01b0_1f67_be26,
    0x0000_013f_768b_38bc,
    0x0000_012b_b816_6e31,
    0x0000_0119_5a32_fe1c,
    0x0000_00c8_9803_2bb0,
    0x0000_0098_c146_2fa0,
    0x0000_002b_40e2_d640,
    0x0000_001d_a9a4_9257,
    0x0000_001d_295a_8e10,
    0x8000_0012_0d5a_5c80,
    0x8000_0015_785b_35ab,
    0x8000_004c_9eb9_2cd8,
    0x8000_006b_778f_5cd2,
    0x8000_00a5_0e61_7f8b,
    0x8000_00c9_fa7b_603a,
    0x8000_00d3_c372_7dc1,
    0x8000_00f4_6d02_ba64,
    0x8000_0140_3808_8c20,
    0x8000_014a_46b4_d1f9,
    0x8000_0152_10e5_5dd9,
    0x8000_017d_8e9b_f816,
    0x8000_01a1_9971_9e93,
    0x8000_01bd_ca06_d65c,
    0x8000_01ff_f603_da2e,
    0x8000_021a_f57d_0e30,
];

// the front of the functions' c
pub const FAINT_COSINES: [u64; 21] = [
    0x8000_0000_0000_0000,
    0x8000_0000_0000_0000,
    0x8000_0000_0000_0000,
    0x8000_0000_0000_0000,
    0x8000_0000_0000_0000,
    0x8000_0000_0000_0000,
    0x8000_0000_0000_0000,
    0x8000_0000_0000_0000,
    0x8000_0000_0000_0000,
    0x8000_0000_0000_0000,
    0x8000_0000_0000_0000,
    0x8000_0000_0000_0000,
    0x8000_0000_0000_0000,
    0x8000_0000_0000_0000,
    0x8000_0000_0000_0000,
    0x8000_0000_0000_0000,
    0x8000_0000_0000_0000,
    0x8000_0000_0000_0000,
    0x8000_0000_0000_0000,
    0xbfeb_3888_0b46_043e,
    0x8000_0000_0000_0000,
];

// the front of their s
pub const FAINT_SINES: [u64; 21] = [
    0x0000_0000_0000_0000,
    0x0000_0000_0000_0000,
    0x8000_0000_0000_0000,
    0x0000_0000_0000_0000,
    0x8000_0000_0000_0000,
    0x8000_0000_0000_0000,
    0x0000_0000_0000_0000,
    0x8000_0000_0000_0000,
    0x8000_0000_0000_0000,
    0x8000_0000_0000_0000,
    0x0000_0000_0000_0000,
    0x8000_0000_0000_0000,
    0x8000_0000_0000_0000,
    0x8000_0000_0000_0000,
    0x8000_0000_0000_0000,
    0x0000_0000_0000_0000,
    0x8000_0000_0000_0000,
    0x8000_0000_0000_0000,
    0x8000_0000_0000_0000,
    0xbfe0_d2ca_0da1_541c,
    0x8000_0000_0000_0000,
];

// how the solver ended: 1 or 0, and its count
pub const FAINT_ENDED: [u64; 2] = [0x0000_0000_0000_0000, 0x0000_0000_0000_0402];

// a region of degree 5: its weights
pub const OF_5_WEIGHTS: [u64; 2] = [0x3fe9_b2fc_f8f0_916c, 0x3fea_5e3a_7dea_383e];

// the latitudes, sine and cosine
pub const OF_5_LATITUDES: [u64; 4] = [
    0x3fe4_9d6e_6946_19b8,
    0x3fe8_7996_529f_9d93,
    0xbfc9_6dff_233d_d2be,
    0x3fef_5cb4_9577_627a,
];

// the marks
pub const OF_5_MARKS: [u8; 2] = [2, 128];

// the integrals s
pub const OF_5_S: [u64; 22] = [
    0xbfd0_7c53_0f76_ae4e,
    0x3fcf_1a49_2c85_da08,
    0x3fc8_f4db_03b9_1927,
    0xbfd2_c44f_d0a0_2cb9,
    0xbfbe_91a3_5939_bf4d,
    0x3fd4_bc74_fbd4_707b,
    0x3fa2_63d4_3319_b6c3,
    0xbfd5_5419_f711_d36e,
    0x3fa9_943c_369c_b114,
    0x3fd4_812c_e7d9_8e11,
    0xbfc0_f65e_42e4_130b,
    0xbfc5_8a1f_a4d9_39a3,
    0x3fd3_a640_cf44_a823,
    0x3fb6_d348_a85b_1393,
    0xbfd5_1eb0_cd96_1656,
    0xbf70_e4e2_4f4e_a6cd,
    0x3fd5_301a_b3f9_c097,
    0xbfb4_c89f_6037_221f,
    0xbfd3_d956_7d24_e72a,
    0x3fc4_9f1e_f36d_cdf3,
    0x3fd1_3126_f589_c0a2,
    0xbfcd_7b60_b847_0379,
];

// the integrals c
pub const OF_5_C: [u64; 22] = [
    0xbfc3_96c1_9e70_36c7,
    0xbfd1_8838_9cf7_7135,
    0x3fcc_9fe2_fc11_47d4,
    0x3fcb_b020_681c_eb93,
    0xbfd1_e135_9c3b_d862,
    0xbfc2_7922_377b_9427,
    0x3fd4_4288_4188_63c5,
    0x3fb0_1037_e3c2_06fa,
    0xbfd5_4b73_5a2e_bcbe,
    0x3f97_8b96_5d9c_e998,
    0x3fd4_ea5f_774c_0c82,
    0xbfcf_8382_695e_0484,
    0xbfc8_7696_dc75_bf65,
    0x3fd2_e8a7_a503_9825,
    0x3fbd_6fa5_1061_d3f1,
    0xbfd4_ce1e_375b_58a9,
    0xbf9f_f6de_1c95_015f,
    0x3fd5_51e8_5fd5_1123,
    0xbfab_f81b_a18c_b098,
    0xbfd4_6b45_c883_2e31,
    0x3fc1_840c_540c_9dbe,
    0x3fd2_2987_159d_9902,
];

// the front of the matrix
pub const OF_5_MATRIX: [u64; 72] = [
    0xbf9c_2804_d3b1_91ae,
    0xbf8d_d7c9_5726_d8dc,
    0x3fac_07c7_7a95_81ca,
    0xbfa6_c43c_8fc8_acc3,
    0x3f7a_1301_d874_3c70,
    0x3f8d_9969_a985_e760,
    0xbf98_8895_134b_7220,
    0x3f99_9706_d31f_d85d,
    0x3faa_bd4b_245e_e106,
    0x3f73_dbd9_e99d_8abd,
    0xbf74_5bec_ce35_3c1e,
    0xbf7e_1c10_a830_56b9,
    0x3f92_c869_6bdd_af56,
    0x3f81_b8fe_65f4_74c8,
    0xbfae_cb5d_3275_5a20,
    0x3f9c_7349_a842_ffa0,
    0x3f8b_6a3d_017b_4296,
    0x3f98_2a9d_e383_ec53,
    0xbf8c_4e73_ec3b_4ba8,
    0x3f90_de3c_6c5b_2cdc,
    0x3f70_e6a3_5d27_336f,
    0xbf81_687c_4f4a_6864,
    0x3f90_8aed_5aa4_8a19,
    0xbf79_ff8b_efc7_9459,
    0xbfad_477b_4285_4048,
    0x3f99_e323_9f05_bcd0,
    0xbf7e_e6f3_3bc5_f0e0,
    0x3f90_92dc_f725_07d9,
    0x3f92_9192_e2bc_e4ac,
    0x3fa3_eb5a_daae_d6fc,
    0xbf91_6707_9754_96dc,
    0x3f95_eab2_9b4c_cb43,
    0xbf88_9ad9_7720_22d6,
    0xbf2b_d875_3b50_ddf4,
    0x3fad_d769_cf54_97d9,
    0xbf84_52d1_7c3b_54ff,
    0xbf8d_d7c9_5726_d8dc,
    0xbf96_5371_1e46_61d8,
    0x3f86_ed70_4cd1_bf86,
    0xbf93_00eb_0be6_d8ab,
    0xbf81_f8a2_485e_8207,
    0x3fa3_9ad9_6434_d336,
    0xbfa4_c064_a6b2_6b08,
    0x3f88_97b0_59fc_fbab,
    0x3f77_3451_b822_cb1c,
    0x3f91_b0b1_1ae6_1476,
    0x3fa0_56ff_0740_0dc0,
    0xbfa0_2380_30a3_8eee,
    0x3f9d_80ee_ea0c_c12b,
    0x3fa3_1a20_1ac5_badc,
    0xbf74_19e8_038c_4fcc,
    0x3f83_1a12_9af0_308c,
    0x3f9a_dd92_4fab_ccdf,
    0xbf85_c7ae_472c_1e76,
    0x3f7f_16cc_a5fe_f4ae,
    0x3f9d_02db_9356_1af2,
    0x3fa3_3d4a_087b_0b08,
    0xbfa7_d681_2d2a_b126,
    0x3f9f_afcb_e975_568c,
    0xbf79_b2ef_079c_2ae9,
    0xbf1d_156e_760d_2004,
    0x3f88_407d_61b2_c55d,
    0xbf9f_5c4d_30b9_eae0,
    0x3fa0_530d_973a_f8ef,
    0x3f80_73d6_a0fc_f6c6,
    0x3f68_7151_16b8_20ac,
    0xbfaa_bc55_1e1c_e1f1,
    0x3fa2_290d_778e_6085,
    0xbf8c_8b90_359e_b803,
    0xbfa5_9c5b_3b04_a8ac,
    0xbf5a_f674_7293_1285,
    0xbf73_9a3d_7566_1b75,
];

// the concentrations
pub const OF_5_CONCENTRATIONS: [u64; 36] = [
    0x3fd2_c107_4a86_30c4,
    0x3fc5_6621_fef1_25fc,
    0x3fbe_661a_8955_4055,
    0x3fb6_970d_f624_40b0,
    0x3fb5_1768_15dc_bfe8,
    0x3fb1_93c2_b1b4_9d02,
    0x3fac_b6ae_8c25_d79c,
    0x3faa_b785_5049_ef6d,
    0x3fa7_1548_95d0_5fb5,
    0x3fa2_08e8_320f_46b0,
    0x3f9c_d196_19d8_3895,
    0x3f9a_1223_d2ce_1ce4,
    0x3f96_b6dc_ca9d_890f,
    0x3f91_22b7_0c37_6858,
    0x3f82_6b8c_d8f7_8521,
    0x3f6d_cd95_10c5_ad04,
    0x3cb4_bf1c_64df_f3a2,
    0xbc59_ade1_cabe_2a26,
    0xbc98_4861_12f3_6f7c,
    0xbca7_f5cd_5821_5b37,
    0xbf66_c6c9_52db_2489,
    0xbf81_055c_2c95_e82e,
    0xbf89_cb9f_98ef_af61,
    0xbf91_9a42_22d6_75fc,
    0xbf96_f2d9_fa65_5672,
    0xbf9a_6316_b0e4_9f48,
    0xbf9f_6134_9848_34e1,
    0xbfa1_1b66_bfe3_94b7,
    0xbfa7_1269_25a8_339d,
    0xbfb1_d627_6d64_4e47,
    0xbfb2_ad6d_43b9_7a54,
    0xbfb8_fc2a_a8eb_cae2,
    0xbfbb_015b_4cbe_bf9b,
    0xbfc4_fd56_3d70_c91b,
    0xbfe3_1654_85b2_ab02,
    0xbfe9_8508_2101_1b99,
];

// the front of the functions' c
pub const OF_5_COSINES: [u64; 42] = [
    0x3fc1_deee_e4e0_7d13,
    0xbfb3_8768_67b9_8b7b,
    0x3fa0_561e_1099_12a8,
    0xbfc4_bbc0_fe92_7b6b,
    0xbf95_e976_40dc_ebd6,
    0xbfd1_29d9_d40a_a2c7,
    0x3fc0_f060_3372_f107,
    0xbfb1_7fbe_99ae_e5a9,
    0x3fc5_9183_d28b_dc81,
    0xbfca_b31d_c4df_d03c,
    0x3fc1_7309_973c_cdca,
    0x3fb5_1173_c8a0_cf85,
    0x3fc5_3cf5_b102_d981,
    0x3fc9_8013_204e_7bb9,
    0x3fc6_e211_5f7a_91ea,
    0xbfc2_8e4c_9f75_b78c,
    0x3fb3_fb28_480d_b677,
    0xbfc5_394f_67a9_e7f3,
    0x3fca_4995_dd3d_13ab,
    0xbfa7_2573_5ff5_cecb,
    0x3fd3_9f6e_2ea3_2c61,
    0xbfc6_7152_cb75_49b5,
    0xbfc5_7353_fa0d_9ddd,
    0xbfb0_6911_016e_96cc,
    0xbf98_666a_5772_a2d3,
    0xbfb7_228f_ce86_db4e,
    0x3fcc_40db_8f9a_28b4,
    0x3fbb_e0c5_438b_bda7,
    0xbfb8_31a2_319e_4f75,
    0x3fcb_ae02_dcdd_3b00,
    0x3fc4_abce_a6de_8efe,
    0x3fc7_eb16_4cd6_0f70,
    0x3f8d_8617_4cdb_b699,
    0x3fbf_d854_ebb7_f1b3,
    0x3fd1_f7ed_c661_6c76,
    0xbfc6_26f4_96c6_faa9,
    0x3fc3_9401_cfed_58d9,
    0x3fc1_794f_0134_e9fb,
    0x3fc1_de50_7235_2042,
    0x3fd3_9ec4_efd5_2017,
    0x3fbb_545a_1879_bded,
    0xbfce_3a53_bbb3_1e84,
];

// the front of their s
pub const OF_5_SINES: [u64; 42] = [
    0x0000_0000_0000_0000,
    0x0000_0000_0000_0000,
    0x3fcd_0fbc_c9fd_41ca,
    0x0000_0000_0000_0000,
    0xbfc3_8cca_e1c3_3804,
    0x3fc5_2164_0752_a269,
    0x0000_0000_0000_0000,
    0xbfca_b80e_b662_cedb,
    0xbfc2_b8a0_4702_367c,
    0xbfc3_135f_e406_c54b,
    0x0000_0000_0000_0000,
    0x3fc6_b88a_7554_f433,
    0xbfc9_22e1_e639_00a0,
    0x3fb4_18f1_3a4b_5cca,
    0xbfd2_e471_b984_3e62,
    0x0000_0000_0000_0000,
    0x3fbf_75c5_e483_70e3,
    0x3fc4_abfc_3cff_03d5,
    0x3f9b_3d7a_34ec_4df2,
    0x3fd0_d0b2_151b_75a4,
    0x3f31_9e47_8086_af4b,
    0x0000_0000_0000_0000,
    0x0000_0000_0000_0000,
    0xbfc4_24de_e9c2_f38a,
    0x0000_0000_0000_0000,
    0xbfcb_97df_eb99_2ea7,
    0xbfc5_dec5_7d52_8b91,
    0x0000_0000_0000_0000,
    0xbfbf_be11_b125_0d65,
    0xbfd0_7e48_b596_99ef,
    0x3f91_045f_621b_eb87,
    0x0000_0000_0000_0000,
    0xbf80_b4ab_ff61_b099,
    0xbfd2_9549_c0d1_d59b,
    0xbfb3_3938_4e1f_a7ed,
    0x3fcd_9d82_4e33_5b0d,
    0x0000_0000_0000_0000,
    0x3fbe_8f7f_48d3_fc57,
    0xbfc1_46c8_3ff8_ea4e,
    0xbfc8_5ce7_7c08_7b1f,
    0x3fb4_56cd_26de_1f69,
    0x3fab_7cf2_8825_c501,
];

// how the solver ended: 1 or 0, and its count
pub const OF_5_ENDED: [u64; 2] = [0x0000_0000_0000_0001, 0x0000_0000_0000_0051];

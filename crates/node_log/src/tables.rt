//! Tables of shifted states, by one byte to eight. Four stand in one place, so that code keeps one address for them.

// A table of the sums of some of these words. Bit i of the place of a sum is set where the word i is one of its terms.
macro_rules! sums_of {
    ([$($sum:expr),*]) => { [$($sum),*] };
    ([$($sum:expr),*] $word:literal $($more:literal)*) => {
        sums_of!([$($sum,)* $($sum ^ $word),*] $($more)*)
    };
}

// The states to which the states below 256 are shifted by one byte.
const BY_ONE: [u32; 256] = sums_of!(
    [0] 0xF26B8303 0xE13B70F7 0xC79A971F 0x8AD958CF 0x105EC76F 0x20BD8EDE 0x417B1DBC 0x82F63B78
);

// The states to which the states below 256 are shifted by two bytes.
const BY_TWO: [u32; 256] = sums_of!(
    [0] 0x13A29877 0x274530EE 0x4E8A61DC 0x9D14C3B8 0x3FC5F181 0x7F8BE302 0xFF17C604 0xFBC3FAF9
);

// The states to which the states below 256 are shifted by three bytes.
const BY_THREE: [u32; 256] = sums_of!(
    [0] 0xA541927E 0x4F6F520D 0x9EDEA41A 0x38513EC5 0x70A27D8A 0xE144FB14 0xC76580D9 0x8B277743
);

// The states to which the states below 256 are shifted by four bytes.
const BY_FOUR: [u32; 256] = sums_of!(
    [0] 0xDD45AAB8 0xBF672381 0x7B2231F3 0xF64463E6 0xE964B13D 0xD725148B 0xABA65FE7 0x52A0C93F
);

// The states to which the states below 256 are shifted by five bytes.
const BY_FIVE: [u32; 256] = sums_of!(
    [0] 0x38116FAC 0x7022DF58 0xE045BEB0 0xC5670B91 0x8F2261D3 0x1BA8B557 0x37516AAE 0x6EA2D55C
);

// The states to which the states below 256 are shifted by six bytes.
const BY_SIX: [u32; 256] = sums_of!(
    [0] 0xEF306B19 0xDB8CA0C3 0xB2F53777 0x6006181F 0xC00C303E 0x85F4168D 0x0E045BEB 0x1C08B7D6
);

// The states to which the states below 256 are shifted by seven bytes.
const BY_SEVEN: [u32; 256] = sums_of!(
    [0] 0x68032CC8 0xD0065990 0xA5E0C5D1 0x4E2DFD53 0x9C5BFAA6 0x3D5B83BD 0x7AB7077A 0xF56E0EF4
);

// The states to which the states below 256 are shifted by eight bytes.
const BY_EIGHT: [u32; 256] = sums_of!(
    [0] 0x493C7D27 0x9278FA4E 0x211D826D 0x423B04DA 0x847609B4 0x0D006599 0x1A00CB32 0x34019664
);

/// The tables by one byte to four.
pub(crate) static NEAR: [[u32; 256]; 4] = [BY_ONE, BY_TWO, BY_THREE, BY_FOUR];

/// The tables by five bytes to eight.
pub(crate) static FAR: [[u32; 256]; 4] = [BY_FIVE, BY_SIX, BY_SEVEN, BY_EIGHT];

//! What a balloon meets on its way, by height: temperature and pressure as in the standard atmosphere, humidity and ozone as is usual, how
//! fast it falls there, and how warm its ozone cell is. All but the two temperatures lies between values of levels that are two kilometres
//! apart. Heights are in decimetres.

/// How far the levels lie apart.
const STEP: u32 = 20_000;

/// How many levels there are, from the ground to 32 km.
const LEVELS: usize = 17;

/// The pressure at each level, in tenths of a hectopascal.
const PRESSURES: [u16; LEVELS] = [
    10_133, 7_950, 6_166, 4_722, 3_565, 2_650, 1_940, 1_417, 1_035, 757, 553, 405, 297, 219, 162,
    120, 89,
];

/// The humidity at each level, in tenths of a percent.
const HUMIDITIES: [u16; LEVELS] = [
    780, 700, 560, 430, 330, 240, 140, 80, 50, 40, 35, 30, 26, 23, 21, 19, 18,
];

/// How fast a burst balloon falls at each level under its parachute, in decimetres a second: 7 m/s at the ground, and faster in thinner
/// air, by the root of its density.
const FALLS: [u16; LEVELS] = [
    70, 77, 86, 95, 107, 121, 139, 162, 190, 222, 260, 305, 358, 419, 489, 571, 666,
];

/// The partial pressure of ozone at each level, in hundredths of a millipascal: most of it lies around 22 km.
const OZONE: [u16; LEVELS] = [
    300, 280, 250, 220, 200, 250, 430, 700, 950, 1_170, 1_360, 1_450, 1_390, 1_210, 960, 700, 500,
];

/// The value at a height, on a straight line between those of the two levels around it.
fn between_levels(values: &[u16; LEVELS], height: u32) -> i64 {
    let level = (height / STEP).min(15) as usize;
    let (lower, upper) = (i64::from(values[level]), i64::from(values[level + 1]));
    lower + (upper - lower) * i64::from(height % STEP) / i64::from(STEP)
}

/// The pressure, in tenths of a hectopascal.
pub(crate) fn pressure_at(height: u32) -> i64 {
    between_levels(&PRESSURES, height)
}

/// The humidity, in tenths of a percent.
pub(crate) fn humidity_at(height: u32) -> i64 {
    between_levels(&HUMIDITIES, height)
}

/// The speed at which a burst balloon falls, in decimetres a second.
pub(crate) fn fall_at(height: u32) -> i64 {
    between_levels(&FALLS, height)
}

/// The partial pressure of ozone, in hundredths of a millipascal.
pub(crate) fn ozone_at(height: u32) -> i64 {
    between_levels(&OZONE, height)
}

/// The temperature of the ozone cell, in hundredths of a degree: 25 at the ground, half a degree less for each kilometre.
pub(crate) fn cell_temperature_at(height: u32) -> i64 {
    2_500 - i64::from(height) * 50 / 10_000
}

/// The temperature of the air, in hundredths of a degree: 15 at the ground, 6.5 degrees less for each kilometre up to 11 km, the same up to
/// 20 km, and then 1 degree more for each.
pub(crate) fn temperature_at(height: u32) -> i64 {
    let below = i64::from(height.min(110_000));
    let above = i64::from(height.saturating_sub(200_000));
    1_500 - below * 650 / 10_000 + above / 100
}

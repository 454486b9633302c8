//! The downlinks that are known by a name.
//!
//! The rates of symbols are those of NOAA's "HRIT/EMWIN Overview" and "LRIT Receiver Specifications", of KMA's "GK2A
//! LRIT Mission Specification Document", and of SatDump's pipelines, which have them too. The roll-off of GOES-R is
//! that of the first one, 0.3, as remembered (SatDump filters with 0.5); the others' is SatDump's.

/// A downlink.
#[derive(Clone, Copy)]
pub(crate) struct Downlink {
    pub(crate) name: &'static str,
    /// Symbols a second.
    pub(crate) symbols: f64,
    pub(crate) roll_off: f64,
    /// The options that `lritstation SHELF receive` wants.
    pub(crate) options: &'static str,
}

/// The names, as `--downlink` takes them.
pub(crate) const NAMES: [&str; 3] = ["goes-hrit", "gk2a-lrit", "goes-lrit"];

const GOES_HRIT: Downlink = Downlink {
    name: "goes-hrit",
    symbols: 927000.0,
    roll_off: 0.3,
    options: "--line nrz-m --g2 plain",
};

const GK2A_LRIT: Downlink = Downlink {
    name: "gk2a-lrit",
    symbols: 128000.0,
    roll_off: 0.5,
    options: "--g2 plain",
};

const GOES_LRIT: Downlink = Downlink {
    name: "goes-lrit",
    symbols: 293883.0,
    roll_off: 0.5,
    options: "--g2 plain",
};

/// The downlink of this name.
pub(crate) fn downlink_named(name: &str) -> Option<Downlink> {
    match name {
        "goes-hrit" => Some(GOES_HRIT),
        "gk2a-lrit" => Some(GK2A_LRIT),
        "goes-lrit" => Some(GOES_LRIT),
        _ => None,
    }
}

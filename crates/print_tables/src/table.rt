//! The tables of codes, and what their codes mean.
use mv_bits::BitWindow;
use mv_codes::{
    Coef, Increment, TypeBits, read_coef, read_dc_size, read_increment, read_motion, read_pattern,
    read_type,
};
use mv_terms::PicType;
use std::fmt;

/// A table of codes (H.262, annex B).
#[derive(Clone, Copy)]
pub(crate) enum Table {
    Increment,
    Type(PicType),
    Pattern,
    Motion,
    DcSize { luma: bool },
    Coefficient { table_15: bool, first: bool },
}

impl Table {
    /// Each table, in the order of the standard.
    pub(crate) const ALL: [Table; 11] = [
        Table::Increment,
        Table::Type(PicType::I),
        Table::Type(PicType::P),
        Table::Type(PicType::B),
        Table::Pattern,
        Table::Motion,
        Table::DcSize { luma: true },
        Table::DcSize { luma: false },
        Table::Coefficient {
            table_15: false,
            first: false,
        },
        Table::Coefficient {
            table_15: false,
            first: true,
        },
        Table::Coefficient {
            table_15: true,
            first: false,
        },
    ];

    pub(crate) fn name(self) -> &'static str {
        match self {
            Table::Increment => "increment",
            Table::Type(PicType::I) => "type-I",
            Table::Type(PicType::P) => "type-P",
            Table::Type(PicType::B) => "type-B",
            Table::Pattern => "pattern",
            Table::Motion => "motion",
            Table::DcSize { luma: true } => "dc-luma",
            Table::DcSize { luma: false } => "dc-chroma",
            Table::Coefficient { table_15: true, .. } => "coef-15",
            Table::Coefficient { first: true, .. } => "coef-14-first",
            Table::Coefficient { .. } => "coef-14",
        }
    }

    /// Reads a code of the table; None where no code begins the bits.
    pub(crate) fn read(self, window: &mut BitWindow<'_>) -> Option<Meaning> {
        Some(match self {
            Table::Increment => Meaning::Increment(read_increment(window)?),
            Table::Type(picture) => Meaning::Type(read_type(window, picture)?),
            Table::Pattern => Meaning::Number(i16::from(read_pattern(window)?)),
            Table::Motion => Meaning::Number(i16::from(read_motion(window)?)),
            Table::DcSize { luma } => Meaning::Number(i16::from(read_dc_size(window, luma)?)),
            Table::Coefficient { table_15, first } => {
                Meaning::Coefficient(read_coef(window, table_15, first)?)
            }
        })
    }
}

/// What a code means.
#[derive(Clone, Copy)]
pub(crate) enum Meaning {
    Number(i16),
    Increment(Increment),
    Type(TypeBits),
    Coefficient(Coef),
}

impl fmt::Display for Meaning {
    fn fmt<W: fmt::Write>(&self, f: &mut fmt::Formatter<W>) -> fmt::Result {
        match self {
            Meaning::Number(number) => write!(f, "{number}"),
            Meaning::Increment(Increment::Step(step)) => write!(f, "{step}"),
            Meaning::Increment(Increment::Escape) => write!(f, "escape"),
            Meaning::Type(flags) => write_flags(f, flags),
            Meaning::Coefficient(Coef::End) => write!(f, "end"),
            Meaning::Coefficient(Coef::Escape) => write!(f, "escape"),
            Meaning::Coefficient(Coef::Pair(run, level)) => write!(f, "run {run} level {level}"),
        }
    }
}

fn write_flags<W: fmt::Write>(f: &mut fmt::Formatter<W>, flags: &TypeBits) -> fmt::Result {
    let words = [
        (flags.quant, "quant"),
        (flags.forward, "forward"),
        (flags.backward, "backward"),
        (flags.pattern, "pattern"),
        (flags.intra, "intra"),
    ];
    let mut gap = "";
    for (flag, word) in words {
        if flag {
            write!(f, "{gap}{word}")?;
            gap = " ";
        }
    }
    Ok(())
}

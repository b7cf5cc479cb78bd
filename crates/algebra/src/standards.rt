// The three standard algebras as one type, so that a program can open the one that a code names.
ghost use Rattle.algebra.specs.Standard.{meaning_of, Decodes, Names};
ghost use Rattle.algebra.specs.declared.standards.Standard.TheVariants.{Instants, Spans, Regions};
ghost use Rattle.algebra.specs.InstantLaws.{instant_laws};
ghost use Rattle.algebra.specs.SpanLaws.{span_laws};
ghost use Rattle.algebra.specs.RegionLaws.{region_laws};

use crate::instant::Instants;
use crate::region::Regions;
use crate::span::Spans;
use crate::table::Tables;
use crate::tabled::Tabled;
use std::str::FromStr;

#[derive(Clone, Copy, PartialEq, Eq, Debug)]
pub enum Standard {
    Instants = 1,
    Spans = 2,
    Regions = 3,
}

/// A code that is in no standard algebra's stamp.
#[derive(Clone, Copy, PartialEq, Eq, Debug)]
pub struct UnknownCode(pub u8);

/// The algebra with this code in its stamp.
impl TryFrom<u8> for Standard {
    type Error = UnknownCode;

    ghost try_from_gives = { Decodes };

    fn try_from(code: u8) -> Result<Standard, UnknownCode> {
        match code {
            1 => Ok(Standard::Instants),
            2 => Ok(Standard::Spans),
            3 => Ok(Standard::Regions),
            _ => Err(UnknownCode(code)),
        }
    }
}

/// A text that is no standard algebra's name.
#[derive(Clone, Copy, PartialEq, Eq, Debug)]
pub struct UnknownName;

/// The algebra with this name.
impl FromStr for Standard {
    type Err = UnknownName;

    ghost from_str_gives = { Names };

    fn from_str(name: &str) -> Result<Standard, UnknownName> {
        match name {
            "instants" => Ok(Standard::Instants),
            "spans" => Ok(Standard::Spans),
            "regions" => Ok(Standard::Regions),
            _ => Err(UnknownName),
        }
    }
}

impl Tabled for Standard {
    ghost described = { meaning_of };

    ghost lawful = { elim [ Instants ↦ instant_laws | Spans ↦ span_laws | Regions ↦ region_laws ] };

    fn tables(&self) -> Tables {
        match self {
            Standard::Instants => Instants.tables(),
            Standard::Spans => Spans.tables(),
            Standard::Regions => Regions.tables(),
        }
    }
}

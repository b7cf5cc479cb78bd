// Regions: RCC-8.
ghost use Rattle.algebra.specs.Regions.{regions};
ghost use Rattle.algebra.specs.RegionLaws.{region_laws};

use crate::standards::Standard;
use crate::table::Tables;
use crate::tabled::Tabled;

/// Regions of a screen. The readings from 0 up are `e d c o t T n N`: equal, disconnected, touching, overlapping, part that
/// touches the edge and its converse, part clear of the edge and its converse.
#[derive(Clone, Copy)]
pub struct Regions;

impl Tabled for Regions {
    ghost described = { λ _. regions };

    ghost lawful = { λ _. region_laws };

    fn tables(&self) -> Tables {
        Tables {
            code: Standard::Regions as u8,
            universe: 0xFF,
            converses: &[0, 1, 2, 3, 5, 4, 7, 6],
            compositions: &[
                &[0x01, 0x02, 0x04, 0x08, 0x10, 0x20, 0x40, 0x80],
                &[0x02, 0xFF, 0x5E, 0x5E, 0x5E, 0x02, 0x5E, 0x02],
                &[0x04, 0xAE, 0x3F, 0x5E, 0x5C, 0x06, 0x58, 0x02],
                &[0x08, 0xAE, 0xAE, 0xFF, 0x58, 0xAE, 0x58, 0xAE],
                &[0x10, 0x02, 0x06, 0x5E, 0x50, 0x3F, 0x40, 0xAE],
                &[0x20, 0xAE, 0xAC, 0xA8, 0x39, 0xA0, 0x58, 0x80],
                &[0x40, 0x02, 0x02, 0x5E, 0x40, 0x5E, 0x40, 0xFF],
                &[0x80, 0xAE, 0xA8, 0xA8, 0xA8, 0x80, 0xF9, 0x80],
            ],
        }
    }
}

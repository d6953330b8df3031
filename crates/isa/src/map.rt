//! The maps that programs may point into: counters and cells.
ghost use Rattle.std.specs.Prelude.{◌≡◌, IfSome, Some};
ghost use Rattle.isa.specs.declared.map.Map.{Map};
ghost use Rattle.isa.specs.Maps.{map_number, map_of};

/// One of the two maps: counters that all seats share, or cells of the running seat's own.
#[derive(Clone, Copy, PartialEq, Eq)]
pub enum Map {
    /// 256 counters of 64 bits, summed over all seats. Programs only read them through this map.
    Counters,
    /// 64 cells of 64 bits that belong to the seat alone.
    Cells,
}

impl Map {
    /// Its number in instructions, object files and assembly text: 0 or 1.
    pub fn number(self) -> u8
        ensures { result ≡ map_number self }
    {
        match self {
            Map::Counters => 0,
            Map::Cells => 1,
        }
    }

    /// The map with this number, if there is one.
    pub fn from_number(number: u8) -> Option<Map>
        ensures found { IfSome result (λ map. map_number map ≡ number) }
        ensures only { (map : Map) → map_number map ≡ number → result ≡ Some map }
    {
        match number {
            0 => Some(Map::Counters),
            1 => Some(Map::Cells),
            _ => None,
        }
    }

    /// The map with this number, which is an instruction's imm, if there is one.
    pub fn from_immediate(number: i32) -> Option<Map>
        ensures value { result ≡ map_of number }
    {
        Some(match number {
            0 => Map::Counters,
            1 => Map::Cells,
            _ => return None,
        })
    }
}

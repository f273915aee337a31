//! The limits of what is made.
ghost use Rattle.std.specs.Prelude.{◌≡◌};
ghost use Rattle.image_maker.specs.Size as spec;

use crate::counts::TABLES;
use crate::module::Module;

/// The most rows of a table.
const ROW_LIMIT: u64 = 65534;

/// The most bytes of a module.
const SIZE_LIMIT: u64 = 4_194_304;

const LONG_NAME: u8 = 0xFE;

const LARGE: u8 = 0xFF;

impl Module {
    /// The limit that the module passes: the least number of a table that has more than 65,534
    /// rows, else FE where a name has more than 1,023 bytes, else FF where the size is more than
    /// 4,194,304.
    pub(crate) fn limit(&self) -> Option<u8>
        ensures { result ≡ spec.limit_of self.now }
    {
        let long = self.long_table();
        if long.is_some() {
            return long;
        }
        if !self.tally().is_short {
            return Some(LONG_NAME);
        }
        if SIZE_LIMIT < self.size() {
            return Some(LARGE);
        }
        None
    }

    fn long_table(&self) -> Option<u8>
        ensures { result ≡ spec.long_table self.now }
    {
        (0..TABLES).find(|table| ROW_LIMIT < self.count(*table))
    }
}

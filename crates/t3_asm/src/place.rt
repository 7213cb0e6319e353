//! Where lines stand.
ghost use Rattle.std.specs.Prelude.{◌≡◌, ◌+◌, ◌*◌, ◌^◌, ◌<◌, ◌≤◌, None};
ghost use Rattle.std.specs.FinMap as map;
ghost use Rattle.t3_asm.specs.Arguments.{number_at as number_in_field, short_at as short_in_field};
ghost use Rattle.t3_asm.specs.Places.{place_behind, place_of, page_place, method_place};
ghost use Rattle.t3_asm.specs.Sizes.{content_size as size_of_content};
ghost use Rattle.t3_asm.specs.Stages.{stage_behind};

use crate::arguments::{number_at, short_at};
use crate::pools::PoolSizes;
use crate::sizes::content_size;
use crate::stage::Stage;
use t3_asm_line::{Argument, Keyword};

/// Where a line stands.
#[derive(Clone, Copy, Debug)]
pub struct Place {
    /// What may stand there.
    pub(crate) stage: Stage,
    /// The page size of the open page's pool, where an earlier line says it.
    pub(crate) size: Option<u32>,
    /// In a page the address of the line's first byte.
    pub(crate) address: u128,
    /// The address of the newest method, where it has one.
    pub(crate) method: Option<u128>,
}

impl Place {
    /// Where the first line stands.
    pub(crate) fn first() -> Place
        ensures { result ≡ place_behind None }
    {
        Place {
            stage: Stage::Image,
            size: None,
            address: 0,
            method: None,
        }
    }

    /// Where the line stands that follows a line which stands here.
    pub(crate) fn behind(self, keyword: Keyword, arguments: &[Argument]) -> Place
        requires { self.address ≤ 2 ^ 112 }
        ensures place { result ≡ record {
          stage = stage_behind self.stage keyword arguments.now;
          size = self.size;
          address = self.address + size_of_content keyword arguments.now;
          method = self.method;
        } }
        ensures near { result.address ≤ self.address + 2 ^ 67 }
    {
        Place {
            stage: self.stage.behind(keyword, arguments),
            size: self.size,
            address: self.address + content_size(keyword, arguments),
            method: self.method,
        }
    }

    /// Where a line of this keyword stands, where the line before it leaves off here.
    pub(crate) fn of_line(
        self,
        pools: &PoolSizes,
        keyword: Keyword,
        arguments: &[Argument],
    ) -> Place
        ensures place { result ≡ place_of self pools.now keyword arguments.now }
        ensures near { result.address ≤ self.address + 2 ^ 64 }
    {
        match keyword {
            Keyword::Page => {
                self.of_page(pools.size(short_at(arguments, 0)), number_at(arguments, 1))
            }
            Keyword::Method | Keyword::MethodOptional => self.of_method(),
            _ => self,
        }
    }

    /// Where a page of this index begins.
    fn of_page(self, size: Option<u32>, index: u32) -> Place
        ensures place { result ≡ page_place self size index }
        ensures near { result.address ≤ 2 ^ 64 }
    {
        let address = u128::from(index) * u128::from(size.unwrap_or(0));
        Place {
            size,
            address,
            ..self
        }
    }

    /// Where a method begins.
    fn of_method(self) -> Place
        ensures place { result ≡ method_place self }
        ensures near { result.address ≡ self.address }
    {
        let method = match self.size {
            Some(_) => Some(self.address),
            None => None,
        };
        Place { method, ..self }
    }
}

ghost use Rattle.std.specs.Prelude.{◌≡◌};

use calc_model::{CodeId, Fault, Text};
use calc_num::Num;
use std::alloc::Global;

/// An item that stands in places which hold none.
pub trait Plain: Drop {
    ghost plain: { Self };

    fn plain(alloc: Global) -> Self
        ensures { result ≡ plain };
}

impl Plain for i64 {
    ghost use Rattle.std.specs.Prelude.{pos};

    ghost plain = { pos 0 };

    fn plain(_alloc: Global) -> i64 {
        0
    }
}

impl Plain for Num {
    ghost use Rattle.std.specs.Prelude.{pos};

    ghost plain = { pos 0 };

    fn plain(_alloc: Global) -> Num {
        Num::default()
    }
}

impl Plain for Text {
    ghost use Rattle.std.specs.Prelude.{[]};

    ghost plain = { [] };

    fn plain(alloc: Global) -> Text {
        Text::new(alloc)
    }
}

impl Plain for Fault {
    ghost use Rattle.calc_model.specs.declared.fault.Fault.TheVariants.{NA};

    ghost plain = { NA };

    fn plain(_alloc: Global) -> Fault {
        Fault::NA
    }
}

impl Plain for CodeId {
    ghost plain = { 0 };

    fn plain(_alloc: Global) -> CodeId {
        CodeId::of(0)
    }
}

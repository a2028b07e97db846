// Monomials. A name of x and y alone has t1 with each x and t2 with each y.

use trunc_series::{Exp, Key};

pub const ONE: Key = Key::ONE;

/// t1·x
pub const X: Key = Key {
    exp: Exp { a: 1, b: 0 },
    powers: [1, 0, 0, 0, 0, 0, 0, 0],
};

/// t1^2·x
pub const T1T1_X: Key = Key {
    exp: Exp { a: 1, b: 0 },
    powers: [2, 0, 0, 0, 0, 0, 0, 0],
};

/// t1^2·x^2
pub const XX: Key = Key {
    exp: Exp { a: 2, b: 0 },
    powers: [2, 0, 0, 0, 0, 0, 0, 0],
};

/// t1^3·x^3
pub const XXX: Key = Key {
    exp: Exp { a: 3, b: 0 },
    powers: [3, 0, 0, 0, 0, 0, 0, 0],
};

/// t2·y
pub const Y: Key = Key {
    exp: Exp { a: 0, b: 1 },
    powers: [0, 1, 0, 0, 0, 0, 0, 0],
};

/// t2^2·y^2
pub const YY: Key = Key {
    exp: Exp { a: 0, b: 2 },
    powers: [0, 2, 0, 0, 0, 0, 0, 0],
};

/// t2^3·y^3
pub const YYY: Key = Key {
    exp: Exp { a: 0, b: 3 },
    powers: [0, 3, 0, 0, 0, 0, 0, 0],
};

/// t2^5·y^5
pub const Y_TO_5: Key = Key {
    exp: Exp { a: 0, b: 5 },
    powers: [0, 5, 0, 0, 0, 0, 0, 0],
};

/// t1·t2·x·y
pub const XY: Key = Key {
    exp: Exp { a: 1, b: 1 },
    powers: [1, 1, 0, 0, 0, 0, 0, 0],
};

/// t1^2·t2·x^2·y
pub const XXY: Key = Key {
    exp: Exp { a: 2, b: 1 },
    powers: [2, 1, 0, 0, 0, 0, 0, 0],
};

/// t1·t2^2·x·y^2
pub const XYY: Key = Key {
    exp: Exp { a: 1, b: 2 },
    powers: [1, 2, 0, 0, 0, 0, 0, 0],
};

/// t1·t2^3·x·y^3
pub const XYYY: Key = Key {
    exp: Exp { a: 1, b: 3 },
    powers: [1, 3, 0, 0, 0, 0, 0, 0],
};

/// t1^2·t2^2·x^2·y^2
pub const XXYY: Key = Key {
    exp: Exp { a: 2, b: 2 },
    powers: [2, 2, 0, 0, 0, 0, 0, 0],
};

/// t3·x
pub const T3_X: Key = Key {
    exp: Exp { a: 1, b: 0 },
    powers: [0, 0, 1, 0, 0, 0, 0, 0],
};

/// t2·t3·x·y
pub const T2T3_XY: Key = Key {
    exp: Exp { a: 1, b: 1 },
    powers: [0, 1, 1, 0, 0, 0, 0, 0],
};

/// t1^3·t2·x·y
pub const T1T1T1T2_XY: Key = Key {
    exp: Exp { a: 1, b: 1 },
    powers: [3, 1, 0, 0, 0, 0, 0, 0],
};

/// t2·x^2·y
pub const T2_XXY: Key = Key {
    exp: Exp { a: 2, b: 1 },
    powers: [0, 1, 0, 0, 0, 0, 0, 0],
};

/// t1·t2·t3·x^2·y
pub const T1T2T3_XXY: Key = Key {
    exp: Exp { a: 2, b: 1 },
    powers: [1, 1, 1, 0, 0, 0, 0, 0],
};

/// t2·x·y^2
pub const T2_XYY: Key = Key {
    exp: Exp { a: 1, b: 2 },
    powers: [0, 1, 0, 0, 0, 0, 0, 0],
};

/// t1·t2·x^2·y^2
pub const T1T2_XXYY: Key = Key {
    exp: Exp { a: 2, b: 2 },
    powers: [1, 1, 0, 0, 0, 0, 0, 0],
};

/// t1·y^64
pub const T1_Y_TO_64: Key = Key {
    exp: Exp { a: 0, b: 64 },
    powers: [1, 0, 0, 0, 0, 0, 0, 0],
};

/// t1·x^64·y
pub const T1_X_TO_64_Y: Key = Key {
    exp: Exp { a: 64, b: 1 },
    powers: [1, 0, 0, 0, 0, 0, 0, 0],
};

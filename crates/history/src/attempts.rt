//! When the usual reader is tried: if eight maps in a row are of another form than the usual
//! ones, the next 64 are not tried, and after them one. No answer depends on it, only time does.

/// The failures in a row before maps are passed over.
const FAILURES: u8 = 8;

/// The maps that are passed over then.
const PASSED: u8 = 64;

/// The failures in a row, and how many maps more are not tried.
#[derive(Clone, Copy)]
pub struct Attempts {
    failures: u8,
    passed: u8,
}

impl Attempts {
    pub fn new() -> Attempts {
        Attempts {
            failures: 0,
            passed: 0,
        }
    }

    /// Whether the next map is to be tried. A map that is not tried is counted as passed over.
    #[inline(always)]
    pub fn is_due(&mut self) -> bool {
        if self.passed == 0 {
            return true;
        }
        self.passed -= 1;
        false
    }

    #[inline(always)]
    pub fn succeed(&mut self) {
        self.failures = 0;
    }

    /// A map was not found, though perhaps it was not tried.
    #[inline(always)]
    pub fn miss(&mut self, is_tried: bool) {
        if !is_tried {
            return;
        }
        if self.failures < FAILURES - 1 {
            self.failures += 1;
        } else {
            self.passed = PASSED;
        }
    }
}

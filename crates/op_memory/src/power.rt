use std::alloc::{AllocError, Global};
use std::cell::Cell;
use std::rc::Rc;

/// A power switch that several disks in memory share. It is on until it is switched off. No clause says
/// which: nothing is known of what is shared.
#[derive(Drop)]
pub struct Power {
    is_off: Rc<Cell<bool>>,
}

impl Power {
    /// A new switch, which is on.
    pub fn new(alloc: Global) -> Result<Power, AllocError> {
        match Rc::new(alloc, Cell::new(false)) {
            Ok(is_off) => Ok(Power { is_off }),
            Err(_) => Err(AllocError),
        }
    }

    /// The same switch, for one disk more.
    pub fn share(&self) -> Result<Power, AllocError> {
        Ok(Power {
            is_off: self.is_off.clone()?,
        })
    }

    /// Whether it is off.
    pub fn is_off(&self) -> bool {
        self.is_off.get()
    }

    /// Switches it off, for each disk that shares it.
    pub fn switch_off(&self) {
        self.is_off.set(true);
    }
}

// Drawn input: plans, damaged plans, and calls.
pub(crate) mod calls;
pub(crate) mod damage;
pub(crate) mod drawn;
pub(crate) mod scene;
pub(crate) mod trial;

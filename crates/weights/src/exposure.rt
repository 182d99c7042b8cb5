// A seat as the weight for some year sees it.
#[derive(Clone, Copy)]
pub struct Exposure {
    // The count for that year, and the present count. A seat that is failed or not named has 0 and 1.
    pub count: u64,
    pub present: u64,
}

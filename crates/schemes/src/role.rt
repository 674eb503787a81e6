// A role as a caller brings it, within the limits of a role book or not.
#[derive(Clone, Copy)]
pub struct Role {
    // 0 to 7 in a role book
    pub level: u64,
    // 0 to 3 in a role book; 0 stands for all districts, the number by which a role is entered
    pub district: u64,
}

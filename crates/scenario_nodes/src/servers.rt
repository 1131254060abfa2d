//! The nodes with disks of a scenario.
use coordinator_core::Coordinator;
use resource_core::Resource;

/// The nodes with disks of a scenario: the coordinator, and the resources in their order.
#[derive(Drop)]
pub struct Servers<D> {
    pub coordinator: Coordinator<D>,
    pub resources: Vec<Resource<D>>,
}

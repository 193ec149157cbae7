//! What a flush gives.

use sk_model::{EngineFault, FlushFault, Point, ReceiptList};

/// What one flush gave, and the purges that follow it.
#[derive(Drop)]
pub struct FlushNote {
    /// The receipts that it gave, in the order in which their needs were queued.
    pub receipts: ReceiptList,
    /// The durable cut behind it.
    pub cut: Point,
    /// Why it was refused, if it was.
    pub refused: Option<FlushFault>,
    /// Whether its commits could not be read, since a device behind an engine failed. Nothing was written then.
    pub unread: bool,
    /// Why the purge of the memory engine failed, if it did. It purged nothing then.
    pub sweep_mem: Option<EngineFault>,
    /// Why the purge of the storage engine failed, if it did.
    pub sweep_store: Option<EngineFault>,
}

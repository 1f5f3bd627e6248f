//! What a worker notes of its calls, and what `audit` reads of that: a receipt of each call, lists
//! of receipts in little memory, and views of receipts that copy no object.
pub use crate::object_view::ObjectView;
pub use crate::receipt::{Call, Receipt};
pub use crate::receipt_list::ReceiptList;
pub use crate::receipt_view::{CallView, ReceiptView};

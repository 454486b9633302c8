//! Laws of merges and receipts.
ghost use Rattle.lr_downlinks.specs.Laws.{EachFileHasAReceipt, MergesKeepTheOrder, ReceiptsComeInOrder};
ghost use Rattle.lr_downlinks.specs.Room.{FullWhereAllDoNotFit};

/// A merge has the files of each downlink in their order, and no others.
pub fn merges_keep_the_order()
    ensures { MergesKeepTheOrder }
{}

/// Each file that was appended has one receipt.
pub fn each_file_has_a_receipt()
    ensures { EachFileHasAReceipt }
{}

/// Where a next file doesn't fit any more, the files of all downlinks together don't fit.
pub fn full_where_all_do_not_fit()
    ensures { FullWhereAllDoNotFit }
{}

/// `Run::receipts_of` gives the receipts of a downlink, each once and in the order of its files.
pub fn receipts_come_in_order()
    ensures { ReceiptsComeInOrder }
{}

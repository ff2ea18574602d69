//! The certificates of descriptions that several tests use.

/// The certificate of the description with one button: examples/cancel.cert.
pub const CANCEL_CERTIFICATE: &str = "tvcert 1
dialog a
tab c
key C c
end
";

/// The certificate of the order form: examples/order.cert.
pub const ORDER_CERTIFICATE: &str = "tvcert 1
dialog b
tab amount
tab opts
tab qty
tab ok
tab no
tab log
key A amount
key C no
key G opts 1
key L log
key N opts 2
key O ok
end
";

/// The certificate of the radio buttons: examples/colour.cert.
pub const COLOUR_CERTIFICATE: &str = "tvcert 1
dialog d
tab r
tab y
tab n
key B r 2
key C n
key R r 1
key Y y
end
";

/// The certificate of a description without dialogs: examples/windows.cert.
pub const NO_BLOCKS: &str = "tvcert 1\n";

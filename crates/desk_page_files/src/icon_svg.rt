//! The file `page/icon.svg`, as `scripts/docs/page-files --write` makes it.

/// The file `page/icon.svg`.
pub const ICON_SVG: &str = "\
<svg xmlns=\"http://www.w3.org/2000/svg\" viewBox=\"0 0 16 16\"><rect width=\"16\" height=\"16\" rx=\"3\" fill=\"#1d\
4ed8\"/><path d=\"M3 4h10M3 8h10M3 12h6\" stroke=\"#fff\" stroke-width=\"1.8\"/></svg>
";

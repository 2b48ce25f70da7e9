//! The files of the live page. `scripts/docs/page-files --write` makes these sources from the folder `page`.
#![tactic(auto)]

mod icon_svg;
mod index_html;
mod page_css;
mod page_js;

pub use icon_svg::ICON_SVG;
pub use index_html::INDEX_HTML;
pub use page_css::PAGE_CSS;
pub use page_js::PAGE_JS;

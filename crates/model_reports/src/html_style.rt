//! The style of a page of models: its colours, light and dark, and its boxes.

/// The style of a page. Tables and pictures scroll in boxes of their own.
pub(crate) const PAGE_STYLE: &str = "<style>\n\
:root { color-scheme: light dark; --page: #ffffff; --box: #f5f6f8; --line: #d9dde3; --text: #1c2128; --about: #5b6470; \
--link: #1f5fb5; --passed: #1e7043; --failed: #b42626; --undecided: #86590a }\n\
@media (prefers-color-scheme: dark) { :root { --page: #15181d; --box: #1e2229; --line: #363c46; --text: #e7eaee; \
--about: #a3acb8; --link: #82b1ff; --passed: #5fd08f; --failed: #ff8b82; --undecided: #eab75c } }\n\
* { box-sizing: border-box }\n\
body { margin: 0 auto; padding: 24px 16px 64px; max-width: 1200px; background: var(--page); color: var(--text); \
font: 15px/1.5 system-ui, sans-serif; overflow-wrap: anywhere }\n\
h1 { margin: 0 0 8px; font-size: 24px; line-height: 1.25 }\n\
h2 { margin: 32px 0 8px; font-size: 17px }\n\
a { color: var(--link) }\n\
code, table { font: 13px/1.5 ui-monospace, monospace }\n\
.counts { display: flex; flex-wrap: wrap; gap: 4px 20px; margin: 0; padding: 0; list-style: none; font-weight: 600 }\n\
.passed { color: var(--passed) }\n\
.failed { color: var(--failed) }\n\
.undecided { color: var(--undecided) }\n\
.links { padding-left: 20px }\n\
.about { color: var(--about); font-size: 13px }\n\
.verdict { display: inline-block; min-width: 92px; font-weight: 600 }\n\
.model { margin: 8px 0; border: 1px solid var(--line); border-radius: 6px; background: var(--box) }\n\
.model > summary { padding: 8px 12px; cursor: pointer }\n\
.model > :not(summary) { margin-left: 12px; margin-right: 12px }\n\
.name { font-weight: 600; margin-right: 8px }\n\
.claims { padding: 0; list-style: none }\n\
.claims > li { padding: 8px 0; border-top: 1px solid var(--line) }\n\
.why { margin: 4px 0 }\n\
.why p { margin: 0; white-space: pre-wrap }\n\
details details > summary { cursor: pointer; color: var(--about) }\n\
.scroll { margin: 8px 0; border: 1px solid var(--line); border-radius: 4px; background: var(--page); \
overflow-x: auto }\n\
.scroll svg { display: block }\n\
table { border-collapse: collapse }\n\
th, td { padding: 2px 12px; text-align: left; white-space: nowrap; overflow-wrap: normal }\n\
th { border-bottom: 1px solid var(--line) }\n\
th:first-child, td:first-child { text-align: right; color: var(--about) }\n\
tbody tr:nth-child(even) { background: var(--box) }\n\
pre { padding: 8px 12px; overflow-x: auto; font: 13px/1.5 ui-monospace, monospace }\n\
.none { position: absolute }\n\
</style>\n";

//! The style of a picture: its colours, for light and dark display.

/// The style, the fillings and the markers of the shapes: elements of an `svg`, for a page with pictures that
/// [`drawn`](crate::drawn) draws.
pub const STYLE: &str = "<style>\n\
svg { --paper: #ffffff; --ink: #1c2128; --faint: #6b7480; --grid: #e4e7eb; --runs: #c9d3df; --masked: #7186b8; \
--polled: #a5d6b7; --final: #e0a94f; --span: #3d5a99; --bad: #c03535; --good: #2c8554; \
font: 12px system-ui, sans-serif; background: var(--paper) }\n\
@media (prefers-color-scheme: dark) { svg { --paper: #15181d; --ink: #e7eaee; --faint: #98a1ad; --grid: #2a2f37; \
--runs: #4a5563; --masked: #5b73b5; --polled: #3f7f5b; --final: #a87421; --span: #9db4ec; --bad: #ff7b72; \
--good: #5fd08f } }\n\
text { fill: var(--ink) }\n\
.faint { fill: var(--faint) }\n\
.small { font-size: 10px; text-anchor: middle }\n\
.paper { fill: var(--paper) }\n\
.grid { stroke: var(--grid) }\n\
.runs { fill: var(--runs) }\n\
.masked { fill: var(--masked) }\n\
.polled { fill: var(--polled); stroke: var(--masked); stroke-dasharray: 3 2 }\n\
.final { fill: var(--final) }\n\
.waits { fill: url(#hatch) }\n\
.span { fill: var(--span) }\n\
.open { fill: none; stroke: var(--span); stroke-dasharray: 3 2 }\n\
.tick { stroke: var(--ink); stroke-width: 1.5 }\n\
.says { fill: var(--paper); stroke: var(--ink) }\n\
.cut { stroke: var(--bad); stroke-width: 2.5; fill: none }\n\
.ok { fill: var(--good) }\n\
.bad { fill: var(--bad) }\n\
.gone { fill: var(--paper); stroke: var(--bad); stroke-width: 2 }\n\
.starts, .cancels, .wakes { stroke: var(--ink); stroke-width: 1.2; marker-end: url(#tip) }\n\
.cancels { stroke: var(--bad); stroke-dasharray: 5 3 }\n\
.wakes { stroke: var(--good); stroke-dasharray: 2 2 }\n\
</style>\n\
<defs>\n\
<pattern id=\"hatch\" width=\"6\" height=\"6\" patternUnits=\"userSpaceOnUse\" patternTransform=\"rotate(45)\">\
<rect width=\"2.5\" height=\"6\" fill=\"var(--paper)\"/></pattern>\n\
<marker id=\"tip\" viewBox=\"0 0 8 8\" refX=\"7\" refY=\"4\" markerWidth=\"7\" markerHeight=\"7\" \
orient=\"auto-start-reverse\"><path d=\"M0 0L8 4L0 8z\" fill=\"context-stroke\"/></marker>\n\
</defs>\n";
